//! What a POP3 client was told. This function does nothing but name a law: its contract is a law of the definitions.
ghost use Rattle.std.specs.Prelude.{◌≡◌, ℕ, Ok};
ghost use Rattle.undo_base.specs.declared.keys.User.{User as TheUser};
ghost use Rattle.smtp_lines.specs.declared.line.SmtpLine.{SmtpLine as TheLine};
ghost use Rattle.pop_session.specs.declared.answer.Answer.TheVariants.{Closing};
ghost use Rattle.pop_session.specs.declared.command.Command.TheVariants.{Quit};
ghost use Rattle.pop_session.specs.declared.dialog.Dialog.{Dialog as TheFetcher};
ghost use Rattle.pop_session.specs.declared.dialog.Stage.TheVariants.{Transaction};
ghost use Rattle.pop_session.specs.declared.maildrop.Maildrop.{Maildrop as TheMaildrop};
ghost use Rattle.pop_session.specs.Answer.{answer_text};
ghost use Rattle.pop_session.specs.Command.{command_of};
ghost use Rattle.pop_session.specs.Maildrop.{marked_keys};
ghost use Rattle.store_kept.specs.Kept.{Kept, store_of};
ghost use Rattle.mail_loop.specs.Hindrance.{Hindrance};
ghost use Rattle.mail_loop.specs.PopTurn.{pop_session};
ghost use Rattle.mail_loop.specs.Session.{hindered};
ghost use Rattle.mail_loop.specs.State.{Seats};
ghost use Rattle.dialog_laws.specs.Quits.{OnlyGone};

use pop_session::a_quit_removes_the_marked;

/// A QUIT that is answered `+OK Bye.` has taken the messages out of INBOX that its client had marked and that were still there. It has
/// taken no other, and left every other mailbox as it was, whatever hindered it (RFC 1939, section 6).
pub fn an_answered_quit_removed_the_marked()
    ensures { (h : Hindrance) (at : ℕ) (kept : Kept) (others : Seats) (d : TheFetcher) (line : TheLine) (u : TheUser) (drop : TheMaildrop) → d.stage ≡ Transaction u drop → command_of line ≡ Ok Quit →
        (hindered pop_session h at kept others d line).said ≡ answer_text Closing →
        OnlyGone u (marked_keys drop.messages) (store_of kept) (store_of (hindered pop_session h at kept others d line).kept) }
{
    a_quit_removes_the_marked();
}
