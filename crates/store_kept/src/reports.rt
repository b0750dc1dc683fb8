//! The reports of cycles, by the keys of their requests.
ghost use Rattle.std.specs.Prelude.{◌≡◌, ◌<◌, ◌≤◌, filter, insert, length, option_copied, take_while, vec_capacity, vec_len, IsTrue};
ghost use Rattle.store_kept.specs.Kept.{is_by_key, key_cmp, report_of as report_in, with_report};
ghost use Rattle.store_kept.specs.Places.{has_other_key, stands_before};

use paradox::Report;
use std::cmp::Ordering;
use undo_base::Name;

type Row = (Name, Report);

/// How a row lies to a key.
fn compare(row: &Row, key: &Name) -> Ordering
    ensures { result ≡ key_cmp row.now.0 key.now }
{
    row.0.bytes().cmp(key.bytes())
}

/// The report of the cycle that was asked for under a key, found in about as many steps as the number of reports has binary
/// digits. It takes no memory.
pub fn report_of<'a>(reports: &'a [(Name, Report)], key: &Name) -> Option<&'a Report>
    requires { IsTrue (is_by_key reports.now) }
    ensures { option_copied result ≡ report_in reports.now key.now }
{
    match reports.binary_search_by(|row| compare(row, key)) {
        Ok(place) => Some(&reports[place].1),
        Err(_) => None,
    }
}

/// Whether a row is that of another key.
fn is_other(row: &Row, key: &Name) -> bool
    ensures { result ≡ has_other_key key.now row.now }
{
    compare(row, key).is_ne()
}

/// Whether a row stands before that of a key.
fn is_before(row: &Row, key: &Name) -> bool
    ensures { result ≡ stands_before key.now row.now }
{
    compare(row, key).is_lt()
}

/// How many rows stand before that of a key.
fn count_before(reports: &[Row], key: &Name) -> usize
    ensures { result ≡ length (take_while (stands_before key.now) reports.now) }
{
    reports.iter().take_while(|row| is_before(row, key)).count()
}

/// Where the row of a key would come in.
fn place_for(reports: &[Row], key: &Name) -> usize
    ensures value { result ≡ length (take_while (stands_before key.now) reports.now) }
    ensures bound { result ≤ length reports.now }
{
    count_before(reports, key)
}

/// Takes out the report under a key.
fn drop_report(reports: &mut Vec<Row>, key: &Name)
    ensures items { reports.new.items ≡ filter (has_other_key key.now) reports.old.items }
    ensures len { vec_len reports.new ≤ vec_len reports.old }
    ensures capacity { vec_capacity reports.new ≡ vec_capacity reports.old }
{
    reports.retain(|row| is_other(row, key));
}

/// Puts an element at a place, where there is room for one.
fn insert_within<T: Drop>(list: &mut Vec<T>, place: usize, element: T)
    requires room { vec_len list.old < vec_capacity list.old }
    requires place { place ≤ vec_len list.old }
    ensures { list.new.items ≡ insert list.old.items place element }
{
    let _room_is_there = list.insert(place, element);
}

/// Puts a report in the place of its key, where there is room for one. It takes no memory.
pub fn put_report(reports: &mut Vec<(Name, Report)>, key: Name, report: Report)
    requires rising { IsTrue (is_by_key reports.old.items) }
    requires room { vec_len reports.old < vec_capacity reports.old }
    ensures { reports.new.items ≡ with_report key report reports.old.items }
{
    drop_report(reports, &key);
    let place = place_for(reports.as_slice(), &key);
    insert_within(reports, place, (key, report));
}
