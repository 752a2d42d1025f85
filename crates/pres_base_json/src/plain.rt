//! Parts of a body that other texts have too: counts, ids, paths, the tree.

use crate::form::BodyJson;
use json::Writer;
use pres_ids::{
    ClientId, Count, IdFault, SessionId, Stamp, read_count, read_session, read_stamp, write_number,
    write_session,
};
use pres_tree::{Path, Tree};
use pres_wire::part::{path_of, tree_of, write_tree};
use serde_json::Value;
use std::alloc::{AllocError, Global};

impl BodyJson for Count {
    ghost use Rattle.pres_ids.specs.Forms.{whole, message_count};

    ghost json = { whole };

    ghost found = { message_count };

    ghost kept = { λ count. count };

    ghost levels = { 0 };

    fn write(&self, _alloc: Global, out: &mut Writer) -> Result<(), AllocError> {
        out.u64(self.get())
    }

    fn read(_alloc: Global, value: &Value) -> Result<Option<Count>, AllocError> {
        Ok(read_count(value))
    }
}

impl BodyJson for ClientId {
    ghost use Rattle.serde_json.specs.Data.{string};
    ghost use Rattle.pres_ids.specs.Forms.{client_of};

    ghost json = { string };

    ghost found = { client_of };

    ghost kept = { λ client. client };

    ghost levels = { 0 };

    fn write(&self, _alloc: Global, out: &mut Writer) -> Result<(), AllocError> {
        out.string(self.text())
    }

    fn read(alloc: Global, value: &Value) -> Result<Option<ClientId>, AllocError> {
        let Some(text) = value.as_str() else {
            return Ok(None);
        };
        match ClientId::parse(alloc, text) {
            Ok(client) => Ok(Some(client)),
            Err(IdFault::NotAnId) => Ok(None),
            Err(IdFault::Memory) => Err(AllocError),
        }
    }
}

impl BodyJson for Stamp {
    ghost use Rattle.pres_ids.specs.Forms.{stamp_json, stamp_in};

    ghost json = { stamp_json };

    ghost found = { stamp_in };

    ghost kept = { λ stamp. stamp };

    ghost levels = { 1 };

    fn write(&self, _alloc: Global, out: &mut Writer) -> Result<(), AllocError> {
        out.begin_array()?;
        write_number(self.incarnation, out)?;
        write_number(self.attempt, out)?;
        out.end_array()
    }

    fn read(_alloc: Global, value: &Value) -> Result<Option<Stamp>, AllocError> {
        Ok(read_stamp(value))
    }
}

impl BodyJson for SessionId {
    ghost use Rattle.pres_ids.specs.Forms.{session_json, session_of};

    ghost json = { session_json };

    ghost found = { session_of };

    ghost kept = { λ session. session };

    ghost levels = { 1 };

    fn write(&self, _alloc: Global, out: &mut Writer) -> Result<(), AllocError> {
        write_session(self, out)
    }

    fn read(alloc: Global, value: &Value) -> Result<Option<SessionId>, AllocError> {
        read_session(alloc, value)
    }
}

impl BodyJson for Path {
    ghost use Rattle.pres_wire.specs.Fields.{path_json, path_of};

    ghost json = { path_json };

    ghost found = { path_of };

    ghost kept = { λ path. path };

    ghost levels = { 0 };

    fn write(&self, alloc: Global, out: &mut Writer) -> Result<(), AllocError> {
        let text = self.text(alloc)?;
        out.string(text.as_str())
    }

    fn read(alloc: Global, value: &Value) -> Result<Option<Path>, AllocError> {
        path_of(alloc, value)
    }
}

impl BodyJson for Tree {
    ghost use Rattle.pres_tree.specs.JsonPrinting.{json_of};
    ghost use Rattle.pres_tree.specs.Scalars.{scalar_printing};
    ghost use Rattle.pres_wire.specs.DownReads.{value_of};

    ghost json = { json_of scalar_printing };

    ghost found = { value_of };

    ghost kept = { λ tree. tree };

    ghost levels = { 33 };

    fn write(&self, _alloc: Global, out: &mut Writer) -> Result<(), AllocError> {
        write_tree(out, self)
    }

    fn read(alloc: Global, value: &Value) -> Result<Option<Tree>, AllocError> {
        tree_of(alloc, value)
    }
}
