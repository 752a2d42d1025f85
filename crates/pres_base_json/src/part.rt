//! Clients and sessions in a body.

use crate::form::{BodyJson, read_field, write_field};
use json::Writer;
use pres_base::{ClientPart, SessionPart};
use serde_json::Value;
use std::alloc::{AllocError, Global};

impl BodyJson for ClientPart {
    ghost use Rattle.pres_base_json.specs.Forms.{client_json};
    ghost use Rattle.pres_base_json.specs.Reads.{client_part_in, client_with_one_null};

    ghost json = { client_json };

    ghost found = { client_part_in };

    ghost kept = { client_with_one_null };

    ghost levels = { 37 };

    fn write(&self, alloc: Global, out: &mut Writer) -> Result<(), AllocError> {
        out.begin_object()?;
        write_field(alloc, out, "id", &self.id)?;
        write_field(alloc, out, "last", &self.last)?;
        write_field(alloc, out, "rows", &self.rows)?;
        out.end_object()
    }

    fn read(alloc: Global, value: &Value) -> Result<Option<ClientPart>, AllocError> {
        let Some(id) = read_field(alloc, value, "id")? else {
            return Ok(None);
        };
        let Some(last) = read_field(alloc, value, "last")? else {
            return Ok(None);
        };
        let Some(rows) = read_field(alloc, value, "rows")? else {
            return Ok(None);
        };
        Ok(Some(ClientPart { id, last, rows }))
    }
}

impl BodyJson for SessionPart {
    ghost use Rattle.pres_base_json.specs.Forms.{session_part_json};
    ghost use Rattle.pres_base_json.specs.Reads.{session_part_in};

    ghost json = { session_part_json };

    ghost found = { session_part_in };

    ghost kept = { λ part. part };

    ghost levels = { 38 };

    fn write(&self, alloc: Global, out: &mut Writer) -> Result<(), AllocError> {
        out.begin_object()?;
        write_field(alloc, out, "listens", &self.listens)?;
        write_field(alloc, out, "plan", &self.plan)?;
        write_field(alloc, out, "q", &self.q)?;
        write_field(alloc, out, "r", &self.r)?;
        write_field(alloc, out, "s", &self.session)?;
        out.end_object()
    }

    fn read(alloc: Global, value: &Value) -> Result<Option<SessionPart>, AllocError> {
        let Some(q) = read_field(alloc, value, "q")? else {
            return Ok(None);
        };
        let Some(r) = read_field(alloc, value, "r")? else {
            return Ok(None);
        };
        let Some(session) = read_field(alloc, value, "s")? else {
            return Ok(None);
        };
        let Some(listens) = read_field(alloc, value, "listens")? else {
            return Ok(None);
        };
        let Some(plan) = read_field(alloc, value, "plan")? else {
            return Ok(None);
        };
        Ok(Some(SessionPart {
            session,
            q,
            r,
            listens,
            plan,
        }))
    }
}
