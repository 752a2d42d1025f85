//! What to do about the refusal of a server or a client, in a line for people.

ghost use Rattle.std.specs.Prelude.{◌≡◌};
ghost use Rattle.pres_command.specs.Advice.{client_advice, file_advice, row_advice, server_advice};

use pres_faults::SavedFault;
use pres_ids::Count;
use pres_service::ServiceFault;

/// What to do about the refusal of a server, whose file another one has open or not.
pub fn server_advice(is_in_use: bool, fault: &ServiceFault) -> &'static str
    ensures { result.now ≡ server_advice is_in_use fault.now }
{
    match fault {
        ServiceFault::Store(SavedFault::Database) => file_advice(is_in_use),
        ServiceFault::Store(SavedFault::NotOurs) => {
            "the file is another program's database: name another file"
        }
        ServiceFault::Store(SavedFault::BadRow(row)) => row_advice(*row),
        ServiceFault::Store(SavedFault::Version) => {
            "the file is of another version of this program: start that version, or name another file"
        }
        ServiceFault::Store(SavedFault::Memory) | ServiceFault::Memory => {
            "memory was refused: give it more"
        }
        ServiceFault::Address => {
            "the address is in use, or it is none of this machine: stop who listens there, or name another"
        }
        ServiceFault::Input => "the output could not be written: see where it goes",
        ServiceFault::Sock(_) => "start it again",
        ServiceFault::Shut => "the file failed: see its disk, and start the server again",
        ServiceFault::Down => "memory was refused: give it more, and start the server again",
    }
}

// What to do if a server's file failed, which another one has open or not.
fn file_advice(is_in_use: bool) -> &'static str
    ensures { result.now ≡ file_advice is_in_use }
{
    if is_in_use {
        "another server has the file open: stop it, or name another file"
    } else {
        "the file can't be opened or written, or it is no database: see its folder, its rights and the room on its disk"
    }
}

// What to do if a row of a server's file is bad. That of the checkpoint counts as row 0.
fn row_advice(row: Count) -> &'static str
    ensures { result.now ≡ row_advice row }
{
    if row.get() == 0 {
        "the checkpoint of the file is damaged: restore a backup"
    } else {
        "a row of the file is bad: `presence check` says which; restore a copy"
    }
}

/// What to do about the refusal of a client.
pub fn client_advice(fault: &ServiceFault) -> &'static str
    ensures { result.now ≡ client_advice fault.now }
{
    match fault {
        ServiceFault::Address => {
            "no server can be reached there: see that it runs, and where it listens"
        }
        ServiceFault::Sock(_) => {
            "the connection failed or was refused: see what the server says, and connect again"
        }
        ServiceFault::Input => {
            "a line of the input is bad, or a stream failed: see docs/PROTOCOL.md for the lines"
        }
        ServiceFault::Memory => "memory was refused: give it more",
        _ => "start it again",
    }
}
