//! `presence tree`: the value at a path of a file's tree.

ghost use Rattle.std.specs.Prelude.{◌≡◌, ◌++◌, IfErr, IfOk, OnOk};
ghost use Rattle.serde_json.specs.Written.{compact_text};
ghost use Rattle.pres_tree.specs.JsonPrinting.{json_of};
ghost use Rattle.pres_tree.specs.Rows.{value_at};
ghost use Rattle.pres_tree.specs.Scalars.{scalar_printing};
ghost use Rattle.pres_inspect.specs.Copies.{image_of, IsRefusal};
ghost use Rattle.pres_inspect.specs.Reports.{PrintsHistory, PrintsSomeHistory, tree_text, value_text};

use crate::check::put;
use crate::copied::{Copied, copied_from};
use crate::fault::InspectFault;
use crate::found::found_server;
use pres_server::{Path, Server};
use pres_tree::TreeJson;
use std::alloc::{AllocError, Global};
use std::io::Write;

/// Prints the value at the path of the tree that the history in the file makes.
pub fn tree_run<W: Write>(
    host: &HostRuntime,
    file: &str,
    path: &Path,
    output: &mut W,
) -> Result<(), InspectFault>
    ensures shown { OnOk result
        (PrintsSomeHistory (tree_text path.now) (W.contents output.old) (W.contents output.new)) }
{
    let copied = copied_from(host, file)?;
    tree_of(host.alloc(), copied, path, output)
}

/// The same of files that are copied already.
pub fn tree_of<W: Write>(
    alloc: Global,
    copied: Copied,
    path: &Path,
    output: &mut W,
) -> Result<(), InspectFault>
    ensures shown { OnOk result (PrintsHistory (image_of copied) (tree_text path.now)
        (W.contents output.old) (W.contents output.new)) }
    ensures refused { IfErr result (IsRefusal (image_of copied)) }
{
    let found = found_server(alloc, copied)?;
    let line = tree_line(alloc, &found.server, path)?;
    drop(found);
    put(output, line.as_slice())
}

// The line of the value at the path.
fn tree_line(alloc: Global, server: &Server, path: &Path) -> Result<Vec<u8>, AllocError>
    ensures { IfOk result (λ line. line.items ≡ value_text path.now server.now.sum) }
{
    let mut line = Vec::from_slice(alloc, b"tree ")?;
    add_value(alloc, server, path, &mut line)?;
    line.push(b'\n')?;
    Ok(line)
}

// Adds the JSON text of the value at the path, null where nothing stands.
fn add_value(
    alloc: Global,
    server: &Server,
    path: &Path,
    line: &mut Vec<u8>,
) -> Result<(), AllocError>
    ensures { OnOk result (line.new.items ≡ line.old.items
        ++ compact_text (json_of scalar_printing (value_at path.now server.now.sum.tree))) }
{
    match server.value_at(path) {
        Some(value) => value.print(alloc, line),
        None => line.extend_from_slice(b"null"),
    }
}
