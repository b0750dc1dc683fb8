//! Reports of cycles.
ghost use Rattle.std.specs.Prelude.{◌≡◌, IfOk, codes, map};
ghost use Rattle.serde_json.specs.Data.{array, member, no_members, put, string};
ghost use Rattle.serde_json.specs.View.{view, items_view, items_of, members_view};
ghost use Rattle.serde_json.specs.Written.{compact_text};
ghost use Rattle.console_replies.specs.Bodies.{counted};
ghost use Rattle.console_replies.specs.Reports as spec;

use crate::objects::{Members, with_list, with_number, with_text};
use crate::text::{name_text, text_of};
use crate::timeline::user_name;
use paradox::{BrokenItem, Report};
use serde_json::{Map, Value};
use std::alloc::{AllocError, Global};
use undo_base::{NoMemory, Text};
use verb_core::{BoxId, House};

fn broken_members(
    alloc: Global,
    number: u32,
    reason: &str,
    user: &str,
    verb: &str,
) -> Result<Members, AllocError>
    ensures { IfOk result (λ m. members_view m.entries ≡ member (codes "item") (counted number) (member (codes "reason") (string reason.now) (member (codes "user") (string user.now) (member (codes "verb") (string verb.now) no_members)))) }
{
    let members = with_number(alloc, Map::new(alloc), "item", u64::from(number))?;
    let members = with_text(alloc, members, "reason", reason)?;
    let members = with_text(alloc, members, "user", user)?;
    with_text(alloc, members, "verb", verb)
}

fn broken_value(alloc: Global, house: &House, broken: &BrokenItem) -> Result<Value, AllocError>
    ensures { IfOk result (λ v. view v ≡ spec.broken_data house.now broken.now) }
{
    let reason = broken.reason.text();
    let user = user_name(house, broken.user);
    let verb = broken.verb.word();
    let members = broken_members(alloc, broken.number, reason, user, verb)?;
    Ok(Value::Object(members))
}

fn broken_values(
    alloc: Global,
    house: &House,
    list: &[BrokenItem],
) -> Result<Vec<Value>, AllocError>
    ensures { IfOk result (λ v. items_view v.items ≡ items_of (map (spec.broken_data house.now) list.now)) }
{
    let mut values = Vec::new(alloc);
    for broken in list {
        values.push(broken_value(alloc, house, broken)?)?;
    }
    Ok(values)
}

fn renewal_members(alloc: Global, name: &str, stamp: u32, user: &str) -> Result<Members, AllocError>
    ensures { IfOk result (λ m. members_view m.entries ≡ member (codes "box") (string name.now) (member (codes "stamp") (counted stamp) (member (codes "user") (string user.now) no_members))) }
{
    let members = with_text(alloc, Map::new(alloc), "box", name)?;
    let members = with_number(alloc, members, "stamp", u64::from(stamp))?;
    with_text(alloc, members, "user", user)
}

fn renewal_value(alloc: Global, house: &House, renewal: &(BoxId, u32)) -> Result<Value, AllocError>
    ensures { IfOk result (λ v. view v ≡ spec.renewal_data house.now renewal.now) }
{
    let (id, stamp) = renewal;
    let name = name_text(&id.name);
    let user = user_name(house, id.user);
    let members = renewal_members(alloc, name, *stamp, user)?;
    Ok(Value::Object(members))
}

fn renewal_values(
    alloc: Global,
    house: &House,
    renewals: &[(BoxId, u32)],
) -> Result<Vec<Value>, AllocError>
    ensures { IfOk result (λ v. items_view v.items ≡ items_of (map (spec.renewal_data house.now) renewals.now)) }
{
    let mut values = Vec::new(alloc);
    for renewal in renewals {
        values.push(renewal_value(alloc, house, renewal)?)?;
    }
    Ok(values)
}

fn number_values(alloc: Global, numbers: &[u32]) -> Result<Vec<Value>, AllocError>
    ensures { IfOk result (λ v. items_view v.items ≡ items_of (map counted numbers.now)) }
{
    let mut values = Vec::new(alloc);
    for number in numbers {
        values.push(Value::from(*number))?;
    }
    Ok(values)
}

fn with_broken(
    alloc: Global,
    members: Members,
    house: &House,
    list: &[BrokenItem],
) -> Result<Members, AllocError>
    ensures { IfOk result (λ m. members_view m.entries ≡ put (codes "broken") (array (items_of (map (spec.broken_data house.now) list.now))) (members_view members.entries)) }
{
    let values = broken_values(alloc, house, list)?;
    with_list(alloc, members, "broken", values)
}

fn with_renewed(
    alloc: Global,
    members: Members,
    house: &House,
    renewals: &[(BoxId, u32)],
) -> Result<Members, AllocError>
    ensures { IfOk result (λ m. members_view m.entries ≡ put (codes "renewed") (array (items_of (map (spec.renewal_data house.now) renewals.now))) (members_view members.entries)) }
{
    let values = renewal_values(alloc, house, renewals)?;
    with_list(alloc, members, "renewed", values)
}

fn with_numbers(
    alloc: Global,
    members: Members,
    key: &str,
    numbers: &[u32],
) -> Result<Members, AllocError>
    ensures { IfOk result (λ m. members_view m.entries ≡ put key.now (spec.numbers_told numbers.now) (members_view members.entries)) }
{
    let values = number_values(alloc, numbers)?;
    with_list(alloc, members, key, values)
}

fn report_value(alloc: Global, report: &Report, house: &House) -> Result<Value, AllocError>
    ensures { IfOk result (λ v. view v ≡ spec.report_data house.now report.now) }
{
    let members = with_broken(alloc, Map::new(alloc), house, report.broken.as_slice())?;
    let members = with_number(alloc, members, "cycle", u64::from(report.cycle))?;
    let members = with_number(alloc, members, "kept", u64::from(report.kept))?;
    let members = with_numbers(alloc, members, "notices", report.notices.as_slice())?;
    let members = with_number(alloc, members, "point", u64::from(report.point))?;
    let members = with_renewed(alloc, members, house, report.renewed.as_slice())?;
    let members = with_numbers(alloc, members, "unmatched", report.unmatched.as_slice())?;
    Ok(Value::Object(members))
}

/// The answer to POST /cycle and POST /try: the report of the cycle.
#[tactic(auto, using(crate::proofs::Floats::report_has_none))]
pub fn report_json(alloc: Global, report: &Report, house: &House) -> Result<Text, NoMemory>
    ensures { IfOk result (λ text. text ≡ compact_text (spec.report_data house.now report.now)) }
{
    text_of(alloc, report_value(alloc, report, house)?)
}
