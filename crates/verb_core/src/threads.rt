//! The types that workers share or hand back may cross threads.
use crate::{Aim, Conf, House, Item, Mailbox, Refused, Resolved, Rows, Shown, Stamps};

fn crosses<T: Send + Sync>() {}

/// These may be read by several threads, and handed from one to another.
pub fn types_cross_threads() {
    crosses::<Item>();
    crosses::<Resolved>();
    crosses::<Aim>();
    crosses::<Shown>();
    crosses::<Refused>();
    crosses::<Mailbox>();
    crosses::<Rows>();
    crosses::<Stamps>();
    crosses::<Conf>();
    crosses::<House>();
}
