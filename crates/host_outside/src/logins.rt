//! What a string to an IMAP client says of its logins.
//!
//! A login that was refused is seen in what is told to the reader: `NO Login failed.` before the first `OK LOGIN done.`. Over
//! POP3 it is `-ERR Login failed.` before the first answer that ends in ` messages`, which only a PASS that is done has before a
//! login. So neither the dialog nor the machine knows of the line. A POP3 login that is refused because the user has another
//! session is none of them. SMTP has no passwords.
use undo_outside::Role;

/// The end of the answer to a login with a wrong name or password, and the end of that to one that is done, where a role has
/// logins.
fn answers_of(role: Role) -> Option<(&'static [u8], &'static [u8])> {
    match role {
        Role::Smtp => None,
        Role::Imap => Some((b" NO Login failed.\r\n", b" OK LOGIN done.\r\n")),
        Role::Http => None,
        Role::Pop => Some((b"-ERR Login failed.\r\n", b" messages\r\n")),
    }
}

/// How many logins a string refuses before it tells that one is done, and whether it tells that. What follows, which may be
/// long, is not looked at.
pub(crate) fn logins_in(role: Role, bytes: &[u8]) -> (usize, bool) {
    let Some((no, yes)) = answers_of(role) else {
        return (0, false);
    };
    let mut refused: usize = 0;
    for place in 0..bytes.len() {
        let rest = &bytes[place..];
        if rest.starts_with(yes) {
            return (refused, true);
        }
        if rest.starts_with(no) {
            refused = refused.saturating_add(1);
        }
    }
    (refused, false)
}
