//! What writes send to the sessions that listen.

ghost use Rattle.std.specs.Prelude.{◌≡◌, ◌++◌, ◌∷◌, [], map, IfOk};
ghost use Rattle.std.specs.BTreeMap.{get, Updates};
ghost use Rattle.std.specs.List.Sorted.{IsStrictlySortedBy};
ghost use Rattle.pres_tree.specs.Paths.{path_cmp};
ghost use Rattle.pres_tree.specs.Rows.{value_at};
ghost use Rattle.pres_ids.specs.Ids.{ClientId, client_cmp};
ghost use Rattle.pres_server.specs.Answering.{shown};
ghost use Rattle.pres_server.specs.InternalSessions.{sent_one};
ghost use Rattle.pres_server.specs.InternalPushes.{standing, MayPush, MayPushAll, after_pushes, push_to, pushes};

use crate::client_sessions::ClientSessions;
use crate::reopen::Reopen;
use pres_fan::Touched;
use pres_tree::{Path, Tree};
use pres_wire::{Down, Number, PathValue, Values};
use pres_write::Items;
use std::alloc::{AllocError, Global};

// The paths and what stands there.
fn shown(alloc: Global, tree: &Tree, paths: Items<Path>) -> Result<Vec<PathValue>, AllocError>
    ensures { IfOk result (λ made. made.items ≡ map (shown tree.now) paths) }
{
    let mut made = Vec::new(alloc);
    for path in paths.into_vec() {
        let value = tree.copy_at(alloc, &path)?;
        made.push(PathValue { path, value })?;
    }
    Ok(made)
}

// What stands at the paths, which rise.
fn values_of(alloc: Global, tree: &Tree, paths: Items<Path>) -> Result<Values, AllocError>
    requires { IsStrictlySortedBy path_cmp paths }
    ensures { IfOk result (λ values. values ≡ map (shown tree.now) paths) }
{
    let made = shown(alloc, tree, paths)?;
    let Some(values) = Values::new(made) else {
        unreachable!()
    };
    Ok(values)
}

// The Push of entry number `z` to a session that it touches.
fn push(
    places: &mut ClientSessions,
    alloc: Global,
    tree: &Tree,
    z: Number,
    touched: Touched,
) -> Result<Down, Reopen>
    requires { MayPush (standing places.old) touched }
    ensures live { IfOk result (λ _. Updates client_cmp places.old.live places.new.live
        touched.0.client (sent_one (get client_cmp places.old.live touched.0.client))) }
    ensures gone { IfOk result (λ _. places.new.gone ≡ places.old.gone) }
    ensures message { IfOk result (λ m.
        push_to z tree.now (standing places.old) touched ≡ m ∷ []) }
{
    let (session, paths) = touched.into_parts();
    let r = places.emit(&session.client);
    let values = values_of(alloc, tree, paths)?;
    Ok(Down::Push {
        session,
        r,
        z,
        values,
    })
}

/// The Pushes of entry number `z` to the sessions that it touches, in their order.
pub(crate) fn push_all(
    places: &mut ClientSessions,
    alloc: Global,
    tree: &Tree,
    z: Number,
    touched: Vec<Touched>,
    outs: &mut Vec<Down>,
) -> Result<(), Reopen>
    requires { MayPushAll (standing places.old) touched.items }
    ensures live { IfOk result (λ _. (c : ClientId) → get client_cmp places.new.live c
        ≡ after_pushes (standing places.old) touched.items c) }
    ensures gone { IfOk result (λ _. places.new.gone ≡ places.old.gone) }
    ensures messages { IfOk result (λ _. outs.new.items ≡ outs.old.items
        ++ pushes z tree.now (standing places.old) touched.items) }
{
    for reached in touched {
        outs.push(push(places, alloc, tree, z, reached)?)?;
    }
    Ok(())
}

/// Counts a Push to each of the sessions. It takes no memory.
pub(crate) fn count_all(places: &mut ClientSessions, touched: Vec<Touched>)
    requires { MayPushAll (standing places.old) touched.items }
    ensures live { (c : ClientId) → get client_cmp places.new.live c
        ≡ after_pushes (standing places.old) touched.items c }
    ensures gone { places.new.gone ≡ places.old.gone }
{
    for reached in touched {
        let _ = places.emit(&reached.session().client);
    }
}
