//! A body is told the reply to its call.
ghost use Rattle.std.specs.Prelude.{◌≡◌, ◌≤◌, true, slice_get};
ghost use Rattle.fmp_base.specs.Deliveries.{delivered, written};
ghost use Rattle.fmp_instructions.specs.Instructions.{body_tables};
ghost use Rattle.fmp_instructions.specs.Machine.{call_before, code_deliver};
ghost use Rattle.fmp_instructions.specs.Verify.{VerifiedBody, local_fits};

use fmp_base::{Er, Reply, Service};
use fmp_instructions::{BodyCode, Instruction, MachineContext};

fn write(locals: &mut [i32; 64], local: Option<u8>, value: i32)
    requires { local_fits 64 local ≡ true }
    ensures { locals.new ≡ written locals.old local value }
{
    if let Some(place) = local {
        locals[place as usize] = value;
    }
}

fn give_reply(
    locals: &mut [i32; 64],
    service: Service,
    out: Option<u8>,
    receiver: Option<u8>,
    reply: Reply,
)
    requires out { local_fits 64 out ≡ true }
    requires receiver { local_fits 64 receiver ≡ true }
    ensures { locals.new ≡ delivered locals.old (record { service = service; out = out; result = receiver }) reply }
{
    let value = reply.value.unwrap_or(0);
    match reply.code {
        Er::Ok => {
            write(locals, out, value);
            let received = if service.gives_count() { value } else { 0 };
            write(locals, receiver, received);
        }
        code => write(locals, receiver, code.code()),
    }
}

/// The instruction before a place.
pub(crate) fn before(body: &BodyCode, pc: u16) -> Option<Instruction>
    ensures { result ≡ call_before body.now.instructions.items pc }
{
    if pc == 0 {
        return None;
    }
    body.instructions.get(pc as usize - 1).copied()
}

/// The context after the reply to the call that ended a body's last stretch, in place of the one that the call left.
pub fn deliver_in_place(body: &BodyCode, context: &mut MachineContext, reply: Reply)
    requires { VerifiedBody (body_tables body.now) }
    ensures { context.new ≡ code_deliver body.now.instructions.items context.old reply }
{
    if let Some(
        Instruction::Call {
            service,
            out,
            result: receiver,
        },
    ) = before(body, context.pc)
    {
        if out.is_some() || receiver.is_some() {
            give_reply(&mut context.locals, service, out, receiver, reply);
        }
    }
}

/// The context after the reply to the call that ended a body's last stretch.
pub fn deliver(body: &BodyCode, context: MachineContext, reply: Reply) -> MachineContext
    requires { VerifiedBody (body_tables body.now) }
    ensures { result ≡ code_deliver body.now.instructions.items context reply }
{
    let mut after = context;
    deliver_in_place(body, &mut after, reply);
    after
}
