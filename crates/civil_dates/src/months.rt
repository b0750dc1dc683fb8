//! The months' letters.
ghost use Rattle.std.specs.Prelude.{◌≡◌, ◌≤◌};
ghost use Rattle.civil_dates.specs.Months as spec;
ghost use Rattle.civil_dates.specs.Months.{month_name};

/// The three letters of a month, from 1.
pub fn month_letters(month: u8) -> &'static str
    requires low { 1 ≤ month }
    requires high { month ≤ 12 }
    ensures { result.now ≡ month_name month }
{
    match month {
        1 => "Jan",
        2 => "Feb",
        3 => "Mar",
        4 => "Apr",
        5 => "May",
        6 => "Jun",
        7 => "Jul",
        8 => "Aug",
        9 => "Sep",
        10 => "Oct",
        11 => "Nov",
        _ => "Dec",
    }
}

fn is_month(letters: &[u8], month: u8) -> bool
    requires low { 1 ≤ month }
    requires high { month ≤ 12 }
    ensures { result ≡ spec.is_month letters.now month }
{
    letters.eq_ignore_ascii_case(month_letters(month).as_bytes())
}

/// The month that letters name, in any case.
pub fn month_of(letters: &[u8]) -> Option<u8>
    ensures { result ≡ spec.month_of letters.now }
{
    (1..13).find(|month| is_month(letters, *month))
}
