// The replies to options.
ghost use Rattle.std.specs.Prelude.{◌≡◌, ◌++◌, OnOk, IfOk};
ghost use Rattle.nbd_serve.specs.Options.{answer_to, info_next, info_reply, list_reply, long_next, long_reply, next_after};
ghost use Rattle.nbd_wire.specs.Options.{is_info, option_at};

use nbd_wire::{
    Export, OptionHead, OptionKind, OptionReply, is_info_request, put_export, put_information,
    put_option_reply,
};
use std::alloc::AllocError;

/// What comes after an option.
#[derive(Clone, Copy, Debug, PartialEq, Eq)]
pub(crate) enum Next {
    /// The next option.
    More,
    /// Requests.
    Go,
    /// The client is content.
    Abort,
    /// The client broke the protocol.
    HangUp,
}

// Appends the reply to LIST: the one export, which has the empty name.
fn answer_list(number: u32, carried: &[u8], out: &mut Vec<u8>) -> Result<(), AllocError>
    ensures { OnOk result (out.new.items ≡ out.old.items ++ list_reply number carried.now) }
{
    if carried.is_empty() {
        put_option_reply(out, number, OptionReply::Server, &[0; 4])?;
        put_option_reply(out, number, OptionReply::Ack, &[])
    } else {
        put_option_reply(out, number, OptionReply::Invalid, &[])
    }
}

// Appends the reply to INFO or GO. Returns whether it gave the information.
fn answer_info(
    number: u32,
    carried: &[u8],
    export: &Export,
    out: &mut Vec<u8>,
) -> Result<bool, AllocError>
    ensures written { OnOk result (out.new.items ≡ out.old.items ++ info_reply number carried.now export.now) }
    ensures given { IfOk result (λ given. given ≡ is_info carried.now) }
{
    if is_info_request(carried) {
        put_information(out, number, export)?;
        put_option_reply(out, number, OptionReply::Ack, &[])?;
        Ok(true)
    } else {
        put_option_reply(out, number, OptionReply::Invalid, &[])?;
        Ok(false)
    }
}

/// Appends the reply to an option, and returns what comes after it.
pub(crate) fn answer(
    option: &OptionHead,
    carried: &[u8],
    export: &Export,
    no_zeroes: bool,
    out: &mut Vec<u8>,
) -> Result<Next, AllocError>
    ensures written { OnOk result (out.new.items ≡
        out.old.items ++ answer_to (option_at option.now.option) option.now.option carried.now export.now no_zeroes) }
    ensures next { IfOk result (λ next. next ≡ next_after (option_at option.now.option) carried.now) }
{
    let number = option.option;
    match option.kind() {
        OptionKind::ExportName => {
            put_export(out, export, no_zeroes)?;
            Ok(Next::Go)
        }
        OptionKind::Abort => {
            put_option_reply(out, number, OptionReply::Ack, &[])?;
            Ok(Next::Abort)
        }
        OptionKind::List => {
            answer_list(number, carried, out)?;
            Ok(Next::More)
        }
        OptionKind::Info => {
            answer_info(number, carried, export, out)?;
            Ok(Next::More)
        }
        OptionKind::Go => {
            if answer_info(number, carried, export, out)? {
                Ok(Next::Go)
            } else {
                Ok(Next::More)
            }
        }
        OptionKind::Other => {
            put_option_reply(out, number, OptionReply::Unsupported, &[])?;
            Ok(Next::More)
        }
    }
}

/// Appends the reply to an option with too much carried, which was skipped, and returns what comes after it. A request by an export's
/// name has no reply that could refuse it.
pub(crate) fn answer_long(option: &OptionHead, out: &mut Vec<u8>) -> Result<Next, AllocError>
    ensures written { OnOk result (out.new.items ≡ out.old.items ++ long_reply (option_at option.now.option) option.now.option) }
    ensures next { IfOk result (λ next. next ≡ long_next (option_at option.now.option)) }
{
    match option.kind() {
        OptionKind::ExportName => Ok(Next::HangUp),
        _ => {
            put_option_reply(out, option.option, OptionReply::TooBig, &[])?;
            Ok(Next::More)
        }
    }
}
