//! Where a server of a test listens, and where it keeps its history.

use sqlite::Connection;
use std::fs;
use std::net::{Net, TcpListener, TcpStream};
use std::process::Abort;

/// An address at which nobody listens, and the name of a file that isn't there.
#[derive(Drop)]
pub(crate) struct ServerFiles {
    pub(crate) address: String,
    pub(crate) file: String,
}

/// A place of this name.
pub(crate) fn new_place<R: Net<Listener = TcpListener, Stream = TcpStream> + Abort>(
    host: &HostRuntime,
    rt: &R,
    name: &str,
) -> ServerFiles {
    let listener = TcpListener::bind(rt, "127.0.0.1:0").expect(rt, "a listener");
    let port = listener.local_addr().expect(rt, "an address").port();
    drop(listener);
    let address = format!(in host.alloc(); "127.0.0.1:{port}").expect(rt, "memory");
    let file = format!(in host.alloc(); "/tmp/presence_{name}_{port}").expect(rt, "memory");
    let place = ServerFiles { address, file };
    place.clear(host);
    place
}

impl ServerFiles {
    /// Removes the files.
    pub(crate) fn clear(&self, host: &HostRuntime) {
        for end in ["", "-wal", "-shm", ".other", ".other-wal"] {
            if let Ok(name) = format!(in host.alloc(); "{}{end}", self.file) {
                let _ = fs::remove_file(host, name.as_str());
            }
        }
    }

    /// Makes the file again, as a database without tables, with pages of 4,096 bytes.
    pub(crate) fn make_blank(&self, host: &HostRuntime, rt: &impl Abort) {
        self.clear(host);
        let blank = Connection::open(host, self.file.as_str()).expect(rt, "a database");
        drop(blank);
    }

    /// How many bytes a page of the file has.
    pub(crate) fn page_size(&self, host: &HostRuntime, rt: &impl Abort) -> u16 {
        let bytes = fs::read(host, self.file.as_str()).expect(rt, "a file");
        match (bytes.get(16), bytes.get(17)) {
            (Some(high), Some(low)) => u16::from_be_bytes([*high, *low]),
            _ => 0,
        }
    }

    /// The name of a database with a table of another program.
    pub(crate) fn foreign(&self, host: &HostRuntime, rt: &impl Abort) -> String {
        let name = format!(in host.alloc(); "{}.other", self.file).expect(rt, "memory");
        let mut connection = Connection::open(host, name.as_str()).expect(rt, "a database");
        let made = connection.execute("CREATE TABLE other(x INTEGER)", &[]);
        made.expect(rt, "a table");
        name
    }
}
