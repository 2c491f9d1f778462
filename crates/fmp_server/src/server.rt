//! The server: from bytes of an editor to those that answer it.
ghost use Rattle.std.specs.Prelude.{◌≡◌, [], IfOk, flat_map, map};
ghost use Rattle.fmp_server.specs.Framing.{fed, framed as framed_by, fresh};
ghost use Rattle.fmp_server.specs.declared.workspace.Stage.TheVariants as stage;
ghost use Rattle.fmp_server.specs.Serving.{IsFramed, IsServed, reading_of};
ghost use Rattle.fmp_server.specs.Workspaces.{status_of};

use crate::framing::{Framing, append_framed};
use crate::workspace::Workspace;
use std::alloc::{AllocError, Global};

/// A language server.
#[derive(Drop)]
pub struct Server {
    framing: Framing,
    workspace: Workspace,
}

/// Frames messages, one after the other.
fn framed(alloc: Global, messages: &[Vec<u8>]) -> Result<Vec<u8>, AllocError>
    ensures { IfOk result (λ out. out.items ≡ flat_map framed_by (map (λ m. m.items) messages.now)) }
{
    let mut out = Vec::new(alloc);
    for message in messages {
        append_framed(message, &mut out)?;
    }
    Ok(out)
}

impl Server {
    /// A server to which nothing has come.
    pub fn new(alloc: Global) -> Server
        ensures reading { reading_of result ≡ fresh }
        ensures documents { result.workspace.documents.list.items ≡ [] }
        ensures stage { result.workspace.stage ≡ stage.Fresh }
    {
        Server {
            framing: Framing::new(alloc),
            workspace: Workspace::new(alloc),
        }
    }

    /// The status of the program, once `exit` has come: 0 if `shutdown` came before it, else 1.
    pub fn status(&self) -> Option<u8>
        ensures { result ≡ status_of self.now.workspace.stage }
    {
        self.workspace.status()
    }

    /// Takes bytes of the editor, and gives those that are to be written: what answers the messages that end among
    /// them, each after a header that tells its length. `AllocError` if memory runs out.
    pub fn take(&mut self, alloc: Global, bytes: &[u8]) -> Result<Vec<u8>, AllocError>
        ensures read { IfOk result (λ _.
            reading_of self.new ≡ (fed (reading_of self.old) bytes.now).0) }
        ensures framed { IfOk result (λ out. IsFramed out.items) }
        ensures served { IfOk result (λ out. IsServed self.old self.new bytes.now out.items) }
    {
        let messages = self.framing.take(alloc, bytes)?;
        let answers = self.workspace.take(alloc, &messages)?;
        framed(alloc, &answers)
    }
}
