//! What a search looks at.

/// A message of a view. `at` is in seconds since 1970; `last_place` and `last_uid` are the view's. The text may be left out where
/// `looks` of the key is not `Text`, and the size where it is `Nothing`.
#[derive(Clone, Copy, Debug)]
pub struct Candidate<'a> {
    pub place: u32,
    pub uid: u64,
    pub last_place: u32,
    pub last_uid: u64,
    pub answered: bool,
    pub flagged: bool,
    pub deleted: bool,
    pub seen: bool,
    pub draft: bool,
    pub at: u64,
    pub size: u32,
    pub text: &'a [u8],
}

/// What of a message a key looks at, beside its flags, numbers and day.
#[derive(Clone, Copy, Debug, PartialEq, Eq)]
pub enum Look {
    Nothing,
    Size,
    Text,
}
