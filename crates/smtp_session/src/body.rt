//! Stored bodies: two trace lines and the text (RFC 5321, section 4.4).
ghost use Rattle.std.specs.Prelude.{◌≡◌, ◌≤◌, ◌++◌, [], IfOk, OnOk, option_copied, unwrap_or, codes};
ghost use Rattle.civil_dates.specs.Dates.{mail_date};
ghost use Rattle.smtp_session.specs.Bytes.{said};
ghost use Rattle.smtp_session.specs.Body.{body_of, return_path, received};

use civil_dates::push_mail_date;
use std::alloc::Global;
use undo_base::{LAST_MOMENT, Name, NoMemory, Text};

fn push_return_path(out: &mut Text, path: &[u8]) -> Result<(), NoMemory>
    ensures { OnOk result (out.new ≡ out.old ++ return_path path.now) }
{
    out.extend(b"Return-Path: <")?;
    out.extend(path)?;
    out.extend(b">\r\n")
}

fn push_end(alloc: Global, out: &mut Text, at: u64) -> Result<(), NoMemory>
    requires { at ≤ LAST_MOMENT }
    ensures { OnOk result (out.new ≡ out.old ++ codes "; " ++ said (mail_date at)) }
{
    out.extend(b"; ")?;
    push_mail_date(alloc, out, at)?;
    out.extend(b"\r\n")
}

fn push_received(
    alloc: Global,
    out: &mut Text,
    host: &Name,
    at: u64,
    client: &[u8],
) -> Result<(), NoMemory>
    requires { at ≤ LAST_MOMENT }
    ensures { OnOk result (out.new ≡ out.old ++ received host.now at client.now) }
{
    out.extend(b"Received: from ")?;
    out.extend(client)?;
    out.extend(b" by ")?;
    out.extend(host.bytes())?;
    push_end(alloc, out, at)
}

fn client_bytes(client: Option<&Name>) -> &[u8]
    ensures { result.now ≡ unwrap_or (option_copied client.entry) [] }
{
    match client {
        Some(client) => client.bytes(),
        None => &[],
    }
}

/// The trace lines and the text.
pub(crate) fn make_body(
    alloc: Global,
    host: &Name,
    at: u64,
    client: Option<&Name>,
    path: &Text,
    text: &Text,
) -> Result<Text, NoMemory>
    requires { at ≤ LAST_MOMENT }
    ensures { IfOk result (λ body. body ≡ body_of host.now at (unwrap_or (option_copied client.entry) []) path.now text.now) }
{
    let mut body = Text::new(alloc);
    push_return_path(&mut body, path.bytes())?;
    push_received(alloc, &mut body, host, at, client_bytes(client))?;
    body.extend(text.bytes())?;
    Ok(body)
}
