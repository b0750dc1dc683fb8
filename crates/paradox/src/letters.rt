//! Notices.
//!
//! A line of a notice names the mailbox that the item names first: the source of COPY and RENAME.
//!
//! A notice is told of a house with no domain, or of a user whom it has not, with no bytes in that place. No configuration has
//! such a house, and no cycle such a user.
//!
//! The crate gives, beside `broken` and `notice`, whom a cycle sends a notice (`users_told`) and all notices of a cycle
//! (`notices`). So that it is one for each such user, in user order, is said once.
//!
//! A notice of more than 4,294,967,295 bytes finds no memory.
ghost use Rattle.std.specs.Prelude.{◌≡◌, ◌≤◌, [], ◌∷◌, ◌++◌, IsTrue, IfOk, OnOk, decimal, get_or, if◌then◌else◌};
ghost use Rattle.verb_core.specs.Boxes.{same_user};
ghost use Rattle.verb_core.specs.Store.{is_house};
ghost use Rattle.paradox.specs.Letters as spec;

use crate::{BrokenItem, BrokenList, Notices};
use civil_dates::push_mail_date;
use std::alloc::Global;
use undo_base::{LAST_MOMENT, Name, NoMemory, Text, User, Users};
use verb_core::House;

fn first_domain(house: &House) -> &[u8]
    ensures { result.now ≡ get_or house.now.domains 0 [] }
{
    match house.domains.get(0) {
        Some(domain) => domain.bytes(),
        None => &[],
    }
}

/// A user's name, with no memory taken: no bytes where the house has no such user.
pub fn user_name(house: &House, user: User) -> &[u8]
    ensures { result.now ≡ spec.user_name house.now user }
{
    match house.accounts.get(user.0 as usize) {
        Some(account) => account.name.bytes(),
        None => &[],
    }
}

fn push_number(alloc: Global, out: &mut Text, number: u32) -> Result<(), NoMemory>
    ensures { OnOk result (out.new ≡ out.old ++ decimal number) }
{
    let digits = format!(in alloc; "{number}")?;
    out.extend(digits.as_bytes())
}

fn push_address(out: &mut Text, front: &[u8], local: &[u8], house: &House) -> Result<(), NoMemory>
    ensures { OnOk result (out.new ≡ out.old ++ spec.line (front.now ++ spec.address house.now local.now)) }
{
    out.extend(front)?;
    out.extend(b"<")?;
    out.extend(local)?;
    out.extend(b"@")?;
    out.extend(first_domain(house))?;
    out.extend(b">\r\n")
}

fn push_numbered(alloc: Global, out: &mut Text, front: &[u8], number: u32) -> Result<(), NoMemory>
    ensures { OnOk result (out.new ≡ out.old ++ spec.line (front.now ++ decimal number)) }
{
    out.extend(front)?;
    push_number(alloc, out, number)?;
    out.extend(b"\r\n")
}

fn push_line(out: &mut Text, text: &[u8]) -> Result<(), NoMemory>
    ensures { OnOk result (out.new ≡ out.old ++ spec.line text.now) }
{
    out.extend(text)?;
    out.extend(b"\r\n")
}

#[tactic(auto, unfolding(crate::specs::Letters::from_line))]
fn push_from(out: &mut Text, house: &House) -> Result<(), NoMemory>
    ensures { OnOk result (out.new ≡ out.old ++ spec.from_line house.now) }
{
    push_address(out, b"From: undomail ", b"postmaster", house)
}

#[tactic(auto, unfolding(crate::specs::Letters::to_line))]
fn push_to(out: &mut Text, house: &House, user: User) -> Result<(), NoMemory>
    ensures { OnOk result (out.new ≡ out.old ++ spec.to_line house.now user) }
{
    push_address(out, b"To: ", user_name(house, user), house)
}

#[tactic(auto, unfolding(crate::specs::Letters::subject_line))]
fn push_subject(alloc: Global, out: &mut Text, c: u32) -> Result<(), NoMemory>
    ensures { OnOk result (out.new ≡ out.old ++ spec.subject_line c) }
{
    push_numbered(alloc, out, b"Subject: Mail rewound and replayed, cycle ", c)
}

#[tactic(auto, unfolding(crate::specs::Letters::date_line))]
fn push_date(alloc: Global, out: &mut Text, at: u64) -> Result<(), NoMemory>
    requires { at ≤ LAST_MOMENT }
    ensures { OnOk result (out.new ≡ out.old ++ spec.date_line at) }
{
    out.extend(b"Date: ")?;
    push_mail_date(alloc, out, at)?;
    out.extend(b"\r\n")
}

fn push_head(
    alloc: Global,
    out: &mut Text,
    house: &House,
    user: User,
    c: u32,
    at: u64,
) -> Result<(), NoMemory>
    requires { at ≤ LAST_MOMENT }
    ensures { OnOk result (out.new ≡ out.old ++ spec.head_lines house.now user c at) }
{
    push_from(out, house)?;
    push_to(out, house, user)?;
    push_subject(alloc, out, c)?;
    push_date(alloc, out, at)?;
    out.extend(b"\r\n")
}

#[tactic(auto, unfolding(crate::specs::Letters::first_line))]
fn push_first(out: &mut Text) -> Result<(), NoMemory>
    ensures { OnOk result (out.new ≡ out.old ++ spec.first_line) }
{
    push_line(out, b"These answers that you were given no longer hold:")
}

fn push_mailbox(out: &mut Text, mailbox: &Option<Name>) -> Result<(), NoMemory>
    ensures { OnOk result (out.new ≡ out.old ++ spec.spaced_box mailbox.now) }
{
    match mailbox {
        None => Ok(()),
        Some(mailbox) => {
            out.extend(b" ")?;
            out.extend(mailbox.bytes())
        }
    }
}

fn push_broken(alloc: Global, out: &mut Text, broken: &BrokenItem) -> Result<(), NoMemory>
    ensures { OnOk result (out.new ≡ out.old ++ spec.broken_line broken.now) }
{
    push_number(alloc, out, broken.number)?;
    out.extend(b" ")?;
    out.extend(broken.verb.word().as_bytes())?;
    push_mailbox(out, &broken.mailbox)?;
    out.extend(b": ")?;
    out.extend(broken.reason.text().as_bytes())?;
    out.extend(b"\r\n")
}

/// Adds the line of an item, if it is the user's.
fn push_own(alloc: Global, out: &mut Text, user: User, broken: &BrokenItem) -> Result<(), NoMemory>
    ensures { OnOk result (out.new ≡ out.old ++ (if same_user user broken.now.user then spec.broken_line broken.now else [])) }
{
    if user == broken.user {
        push_broken(alloc, out, broken)?;
    }
    Ok(())
}

fn push_lines(
    alloc: Global,
    out: &mut Text,
    user: User,
    list: &[BrokenItem],
) -> Result<(), NoMemory>
    ensures { OnOk result (out.new ≡ out.old ++ spec.broken_lines user list.now) }
{
    for broken in list {
        push_own(alloc, out, user, broken)?;
    }
    Ok(())
}

/// The notice of a cycle to a user: it names the user's items of the list, in its order, and no others
/// (RFC 5322, sections 2.1 and 3.6).
pub fn notice(
    alloc: Global,
    house: &House,
    user: User,
    c: u32,
    at: u64,
    list: &BrokenList,
) -> Result<Text, NoMemory>
    requires { at ≤ LAST_MOMENT }
    ensures { IfOk result (λ text. text ≡ spec.notice_text house.now user c at list.now) }
{
    let mut out = Text::new(alloc);
    push_head(alloc, &mut out, house, user, c, at)?;
    push_first(&mut out)?;
    push_lines(alloc, &mut out, user, list.as_slice())?;
    Ok(out)
}

fn is_told(list: &[BrokenItem], user: User) -> bool
    ensures { result ≡ spec.is_told list.now user }
{
    list.iter().any(|broken| user == broken.user)
}

/// Adds the user, if the list has an item of hers.
fn push_told(users: &mut Users, list: &BrokenList, user: User) -> Result<(), NoMemory>
    ensures { OnOk result (users.new ≡ users.old ++ (if spec.is_told list.now user then user ∷ [] else [])) }
{
    if is_told(list.as_slice(), user) {
        users.push(user)?;
    }
    Ok(())
}

/// Whom a cycle sends a notice: each user with an item in the list, rising.
pub fn users_told(alloc: Global, house: &House, list: &BrokenList) -> Result<Users, NoMemory>
    requires { IsTrue (is_house house.now) }
    ensures { IfOk result (λ users. users ≡ spec.users_told house.now list.now) }
{
    let mut users = Users::new(alloc);
    for place in 0..house.accounts.len() {
        push_told(&mut users, list, User(place as u8))?;
    }
    Ok(users)
}

/// The notices of a cycle: one for each user with an item in the list, in user order.
pub fn notices(
    alloc: Global,
    house: &House,
    c: u32,
    at: u64,
    list: &BrokenList,
) -> Result<Notices, NoMemory>
    requires house { IsTrue (is_house house.now) }
    requires moment { at ≤ LAST_MOMENT }
    ensures { IfOk result (λ notices. notices ≡ spec.notices house.now c at list.now) }
{
    let users = users_told(alloc, house, list)?;
    let mut all = Notices::new(alloc);
    let users = users.as_slice();
    for user in users {
        let text = notice(alloc, house, *user, c, at, list)?;
        all.push((*user, text))?;
    }
    Ok(all)
}
