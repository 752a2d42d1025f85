//! A turn that is kept before it is done.

ghost use Rattle.std.specs.Prelude.{◌≡◌, IfOk, IfErr, OnOk};
ghost use Rattle.pres_server.specs.SumAnswers.{answers_by};
ghost use Rattle.pres_server.specs.SumTurns.{after_commit};
ghost use Rattle.pres_server.specs.Histories.{History, LeadsTo, with_batches};
ghost use Rattle.pres_keeper.specs.Keepers.{KeepsOneNull};
ghost use Rattle.pres_server.specs.Groups.{server_after, answers_each};
ghost use Rattle.pres_keeper.specs.Settlements.{IsUnsettled, KeepsUnsettled, KeepsUnsettledAll, LastsUnsettled, history_with};

use crate::keeper::Keeper;
use pres_faults::SavedFault;
use pres_server::{Busy, Down, Group, Items, Server};

/// Why a turn isn't done.
#[derive(Drop)]
pub enum Unsettled {
    /// The keeper refused its batch, as Memory or Database: nothing is changed, and this is the
    /// server as it was.
    Refused(SavedFault, Server),
    /// It is kept, but an allocation failed and the server is gone. It has to be rebuilt from what
    /// the keeper holds.
    Reopen,
}

/// Gives the turn's batch to the keeper, and then does the turn: the result is the server after it,
/// and the answers, of which none goes out before the batch is kept. So a history that leads to the
/// server's sum and that the keeper holds does both with the batch appended, and whatever a crash
/// leaves from then on begins with it.
pub fn settle<K: Keeper>(keeper: &mut K, busy: Busy) -> Result<(Server, Items<Down>), Unsettled>
    ensures server { IfOk result
        (λ done. done.0 ≡ after_commit busy.state busy.moment busy.made) }
    ensures answers { IfOk result (λ done. done.1 ≡ answers_by busy.state.sum busy.made) }
    ensures leads { (history : History) → LeadsTo history busy.state.sum
        → IfOk result (λ done. LeadsTo (history_with history busy) done.0.sum) }
    ensures kept { (history : History) → LeadsTo history busy.state.sum → K.ready keeper.old
        → K.works keeper.new → K.keeps keeper.old history
        → OnOk result (K.keeps keeper.new (history_with history busy)) }
    ensures undone { IfErr result (IsUnsettled busy.state) }
    ensures refused { (history : History) → LeadsTo history busy.state.sum → K.ready keeper.old
        → K.works keeper.new → K.keeps keeper.old history
        → IfErr result (KeepsUnsettled (K.keeps keeper.new) history busy) }
    ensures nulls { KeepsOneNull busy.state.sum
        → IfOk result (λ done. KeepsOneNull done.0.sum) }
    ensures ready { K.ready keeper.old → K.ready keeper.new }
    ensures worked { K.ready keeper.old → K.works keeper.new → K.works keeper.old }
    ensures crash { (history : History) → LeadsTo history busy.state.sum → K.ready keeper.old
        → K.keeps keeper.old history → K.leaves keeper.old
        (history_with history busy) keeper.new }
    ensures durable { (history : History) → LeadsTo history busy.state.sum → K.ready keeper.old
        → (K.works keeper.old → K.keeps keeper.old history)
        → OnOk result (K.outlasts keeper.new (history_with history busy)) }
    ensures lasts { (history : History) → LeadsTo history busy.state.sum → K.ready keeper.old
        → (K.works keeper.old → K.keeps keeper.old history)
        → IfErr result (LastsUnsettled (K.outlasts keeper.new) (history_with history busy)) }
    ensures outlasts { (history : History) → K.ready keeper.old → K.outlasts keeper.old history
        → K.outlasts keeper.new history }
{
    match keeper.commit(busy.batch()) {
        Ok(()) => match busy.done() {
            Ok(done) => Ok(done),
            Err(_) => Err(Unsettled::Reopen),
        },
        Err(fault) => Err(Unsettled::Refused(fault, busy.abandon())),
    }
}

/// Gives the batches of the group to the keeper, all or none, and then does its turns: the result is
/// the server after them, and the answers of each, of which none goes out before all batches are
/// kept. So a history that leads to the server's sum and that the keeper holds does both with the
/// batches appended, and whatever a crash leaves from then on begins with it. Where the keeper
/// refuses, nothing is changed.
pub fn settle_all<K: Keeper>(
    keeper: &mut K,
    group: Group,
) -> Result<(Server, Items<Items<Down>>), Unsettled>
    ensures server { IfOk result (λ done. done.0 ≡ server_after group) }
    ensures answers { IfOk result
        (λ done. done.1 ≡ answers_each group.state.sum group.batches) }
    ensures leads { (history : History) → LeadsTo history group.state.sum
        → IfOk result (λ done. LeadsTo (with_batches history group.batches) done.0.sum) }
    ensures kept { (history : History) → LeadsTo history group.state.sum → K.ready keeper.old
        → K.works keeper.new → K.keeps keeper.old history
        → OnOk result (K.keeps keeper.new (with_batches history group.batches)) }
    ensures undone { IfErr result (IsUnsettled group.state) }
    ensures refused { (history : History) → LeadsTo history group.state.sum → K.ready keeper.old
        → K.works keeper.new → K.keeps keeper.old history
        → IfErr result (KeepsUnsettledAll (K.keeps keeper.new) history group.batches) }
    ensures nulls { KeepsOneNull group.state.sum
        → IfOk result (λ done. KeepsOneNull done.0.sum) }
    ensures ready { K.ready keeper.old → K.ready keeper.new }
    ensures worked { K.ready keeper.old → K.works keeper.new → K.works keeper.old }
    ensures crash { (history : History) → LeadsTo history group.state.sum → K.ready keeper.old
        → K.keeps keeper.old history → K.leaves keeper.old
        (with_batches history group.batches) keeper.new }
    ensures durable { (history : History) → LeadsTo history group.state.sum → K.ready keeper.old
        → (K.works keeper.old → K.keeps keeper.old history)
        → OnOk result (K.outlasts keeper.new (with_batches history group.batches)) }
    ensures lasts { (history : History) → LeadsTo history group.state.sum → K.ready keeper.old
        → (K.works keeper.old → K.keeps keeper.old history)
        → IfErr result
        (LastsUnsettled (K.outlasts keeper.new) (with_batches history group.batches)) }
    ensures outlasts { (history : History) → K.ready keeper.old → K.outlasts keeper.old history
        → K.outlasts keeper.new history }
{
    match keeper.commit_all(group.batches()) {
        Ok(()) => match group.done() {
            Ok(done) => Ok(done),
            Err(_) => Err(Unsettled::Reopen),
        },
        Err(fault) => Err(Unsettled::Refused(fault, group.abandon())),
    }
}
