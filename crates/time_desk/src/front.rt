//! What a journal opens with: its Format; and where its past was cut off, a Base, the Texts of the messages in it, and the items that
//! were kept. They are judged by their own rules as they are read, and as one where they are over.
//!
//! That numbers and revs of Kepts are below the Base's next is the Kepts' own rule: their gate is told.
ghost use Rattle.std.specs.Prelude.{◌≡◌, ◌<◌, ◌≤◌, ◌+◌, ◌++◌, [], ℕ, List, true, false, Some, None, OnOk, IfOk, IfErr, IfSome, IsTrue, drop, length, is_some, slice_get, if◌then◌else◌, ◌&&◌, ◌==◌};
ghost use Rattle.std.specs.List.{All};
ghost use Rattle.verb_core.specs.declared.conf.Conf.{Conf as TheConf};
ghost use Rattle.verb_core.specs.declared.conf.House.{House as TheHouse};
ghost use Rattle.verb_bytes.specs.declared.journal.JournalRecord.{JournalRecord as TheRecord};
ghost use Rattle.verb_bytes.specs.declared.journal.JournalRecord.TheVariants.{Kept as KeptRecord, Text as TextRecord};
ghost use Rattle.verb_core.specs.Deeds.{is_notice};
ghost use Rattle.verb_core.specs.Items.{text_in};
ghost use Rattle.verb_bytes.specs.Places.{IsTextAt};
ghost use Rattle.verb_bytes.specs.Spelling.{HasSpelling, record_bytes};
ghost use Rattle.seal_log.specs.Journal.{sealed, LiesAt};
ghost use Rattle.seal_log.specs.Loading.{places_from};
ghost use Rattle.seal_log.specs.Settled.{Holds};
ghost use Rattle.mail_desk.specs.Founding.{based_of, begun_on};
ghost use Rattle.store_kept.specs.Founding.{base_stands as based_stands, store_based};
ghost use Rattle.stored_items.specs.Stored.{whole};
ghost use Rattle.store_kept.specs.Kept.{new_desk};
ghost use Rattle.desk_journal.specs.Founding.{first_fore, fore_of, kept_stands, own, settled as settles};
ghost use Rattle.desk_journal.specs.Records.{payloads_of};
ghost use Rattle.desk_journal.specs.Stored.{AreNoted, TextsHeld};
ghost use Rattle.desk_journal.specs.Telling.{IsPastRead};
ghost use Rattle.house_text.specs.Beginning.{can_begin as begins};
ghost use Rattle.time_desk.specs.Fronts.{BaseOf, BeginsBased, BeginsWith, FailsFront, FailsSecond, FoundNoted, FoundStored, GoesOnAt, GoesWith, IsFirst, IsGrounded, LacksOrEnds, SecondIs, SpellsBase, StopsInFront, WentOn, fore_at, fore_in, kept_in, record_of};
ghost use Rattle.time_desk.specs.Heads.{IsHead, brings_kept, headed};
ghost use Rattle.time_desk.specs.Opening.{fits};
ghost use Rattle.time_desk.specs.Standing.{Fails, FrontBreaksFor, IsFormed, Opens, ReadCounts};

use crate::StartFault;
use crate::heads::{HeadOf, head_at};
use crate::standing::{is_formed, length_at};
use crate::start::record_at;
use desk_journal::{Past, can_found};
use house_text::can_begin;
use mail_desk::{BaseParts, Desk, Founding};
use seal_log::Place;
use std::alloc::Global;
use undo_base::{NoMemory, PastText, Text, after};
use undo_outside::Disk;
use verb_bytes::laws::{
    one_spelling, records_begin_with_their_kind, spelled_kept_items_are_formed,
};
use verb_bytes::{JournalRecord, body_text_from, kept_text_from};
use verb_core::{Body, Conf, House, Item};

/// A place among others.
fn nth(places: &[Place], index: usize) -> Place
    requires { index < length places.now }
    ensures { slice_get places.now index ≡ Some result }
{
    places[index]
}

// ---- the Format

/// The house and the configuration at first of a Format with which a journal can begin.
fn opening_of(what: JournalRecord, gate: u64) -> Result<(House, Conf), StartFault>
    requires { HasSpelling what }
    ensures first { IfOk result (λ parts. first_fore what ≡ Some (fore_at parts.0 parts.1)) }
    ensures begins { IfOk result (λ parts. IsTrue (begins parts.0 parts.1)) }
    ensures bad { IfErr result (Fails (fits None what ≡ false) gate) }
{
    match what {
        JournalRecord::Format(house, conf) => {
            if can_begin(&house, &conf) {
                return Ok((house, conf));
            }
            drop(house);
            drop(conf);
            Err(StartFault::Damaged { place: gate })
        }
        other => {
            drop(other);
            Err(StartFault::Damaged { place: gate })
        }
    }
}

/// Those of the record at a place.
fn opening_at<D: Disk>(
    alloc: Global,
    past: &mut Past<D>,
    place: Place,
) -> Result<(House, Conf), StartFault>
    requires place { place.gate + 5 + place.length ≤ past.old.end }
    ensures first { (payloads : List (List ℕ)) (payload : List ℕ) → Holds (D.told past.old.disk) payloads
        → LiesAt payloads place.gate place.length payload → IfOk result (λ parts. IsFirst payload parts.0 parts.1) }
    ensures begins { IfOk result (λ parts. IsTrue (begins parts.0 parts.1)) }
    ensures bad { (payloads : List (List ℕ)) (payload : List ℕ) → Holds (D.told past.old.disk) payloads
        → LiesAt payloads place.gate place.length payload → IfErr result (FailsFront None payload place.gate) }
    ensures still { IsPastRead D.told past.old past.new }
    ensures ok { OnOk result ((D.told past.new.disk).failed_reads ≡ (D.told past.old.disk).failed_reads) }
    ensures fault { IfErr result (ReadCounts (D.told past.old.disk) (D.told past.new.disk)) }
{
    one_spelling();
    match record_at(alloc, past, place) {
        Ok(what) => opening_of(what, place.gate),
        Err(fault) => Err(fault),
    }
}

// ---- the Base

/// The parts of a Base; none of a record of another kind. A Text or a Kept can't stand behind a Format.
fn base_of(what: JournalRecord, gate: u64) -> Result<Option<BaseParts>, StartFault>
    ensures base { IfOk result (BaseOf what) }
    ensures place { IfErr result (λ fault. fault ≡ StartFault.Damaged gate) }
    ensures bad { (house : TheHouse) (conf : TheConf) → IfErr result (Fails (fits (Some (fore_at house conf)) what ≡ false) gate) }
{
    match what {
        JournalRecord::Base {
            next,
            deep,
            conf,
            rows,
            stamps,
            reports,
        } => Ok(Some(BaseParts {
            next,
            deep,
            conf,
            rows,
            stamps,
            reports,
        })),
        JournalRecord::Text { body, text } => {
            let _body = body;
            drop(text);
            Err(StartFault::Damaged { place: gate })
        }
        JournalRecord::Kept(item) => {
            drop(item);
            Err(StartFault::Damaged { place: gate })
        }
        other => {
            drop(other);
            Ok(None)
        }
    }
}

/// Those of the record at a place.
fn base_at<D: Disk>(
    alloc: Global,
    past: &mut Past<D>,
    place: Place,
) -> Result<Option<BaseParts>, StartFault>
    requires place { place.gate + 5 + place.length ≤ past.old.end }
    ensures base { (payloads : List (List ℕ)) (payload : List ℕ) → Holds (D.told past.old.disk) payloads
        → LiesAt payloads place.gate place.length payload → IfOk result (SpellsBase payload) }
    ensures spelled { IfOk result (λ base. IfSome base (λ parts. HasSpelling (record_of parts))) }
    ensures bad { (payloads : List (List ℕ)) (payload : List ℕ) (house : TheHouse) (conf : TheConf) → Holds (D.told past.old.disk) payloads
        → LiesAt payloads place.gate place.length payload → IfErr result (FailsFront (Some (fore_at house conf)) payload place.gate) }
    ensures still { IsPastRead D.told past.old past.new }
    ensures ok { OnOk result ((D.told past.new.disk).failed_reads ≡ (D.told past.old.disk).failed_reads) }
    ensures fault { IfErr result (ReadCounts (D.told past.old.disk) (D.told past.new.disk)) }
{
    one_spelling();
    match record_at(alloc, past, place) {
        Ok(what) => base_of(what, place.gate),
        Err(fault) => Err(fault),
    }
}

/// Those of the record behind the first, where there is one.
fn base_behind<D: Disk>(
    alloc: Global,
    past: &mut Past<D>,
    places: &[Place],
) -> Result<Option<BaseParts>, StartFault>
    requires places { All (λ place. place.gate + 5 + place.length ≤ past.old.end) places.now }
    ensures base { (payloads : List (List ℕ)) → Holds (D.told past.old.disk) payloads → places.now ≡ places_from 0 payloads
        → IfOk result (SecondIs payloads) }
    ensures spelled { IfOk result (λ base. IfSome base (λ parts. HasSpelling (record_of parts))) }
    ensures second { IfOk result (λ base. IsTrue (is_some base) → 2 ≤ length places.now) }
    ensures bad { (payloads : List (List ℕ)) (house : TheHouse) (conf : TheConf) → Holds (D.told past.old.disk) payloads → places.now ≡ places_from 0 payloads
        → IfErr result (FailsSecond (fore_at house conf) payloads) }
    ensures still { IsPastRead D.told past.old past.new }
    ensures ok { OnOk result ((D.told past.new.disk).failed_reads ≡ (D.told past.old.disk).failed_reads) }
    ensures fault { IfErr result (ReadCounts (D.told past.old.disk) (D.told past.new.disk)) }
{
    if places.len() < 2 {
        return Ok(None);
    }
    base_at(alloc, past, nth(places, 1))
}

/// A desk that is founded on a base, where it can stand.
fn founded_on(
    alloc: Global,
    house: House,
    opening: Conf,
    base: BaseParts,
    gate: u64,
) -> Result<Founding, StartFault>
    requires begins { IsTrue (begins house opening) }
    requires spelled { HasSpelling (record_of base) }
    ensures founding { IfOk result (λ made. (own (fore_at house opening) (record_of base) ≡ Some (fore_in made)) × (made ≡ begun_on house opening base)) }
    ensures stands { OnOk result (IsTrue (based_stands house (based_of base))) }
    ensures bad { IfErr result (Fails (own (fore_at house opening) (record_of base) ≡ None) gate) }
{
    match can_found(alloc, &house, &base) {
        Ok(true) => founding_of(alloc, house, opening, base),
        Ok(false) => {
            drop(house);
            drop(opening);
            drop(base);
            Err(StartFault::Damaged { place: gate })
        }
        Err(NoMemory) => {
            drop(house);
            drop(opening);
            drop(base);
            Err(StartFault::NoMemory)
        }
    }
}

/// The same of one that can.
fn founding_of(
    alloc: Global,
    house: House,
    opening: Conf,
    base: BaseParts,
) -> Result<Founding, StartFault>
    requires begins { IsTrue (begins house opening) }
    requires stands { IsTrue (based_stands house (based_of base)) }
    ensures made { IfOk result (λ made. made ≡ begun_on house opening base) }
    ensures memory { IfErr result (λ fault. fault ≡ StartFault.NoMemory) }
{
    match Founding::new(alloc, house, opening, base) {
        Ok(founding) => Ok(founding),
        Err(NoMemory) => Err(StartFault::NoMemory),
    }
}

// ---- the Texts and the Kepts

/// Notes the text of a Text, where it can stand.
fn take_text(
    founding: &mut Founding,
    body: Body,
    text: &Text,
    place: Place,
) -> Result<bool, StartFault>
    requires spelled { HasSpelling (TextRecord body text.now) }
    requires long { place.length ≡ length (record_bytes (TextRecord body text.now)) }
    requires grounded { IsGrounded founding.old }
    ensures goes { IfOk result (λ went. (went ≡ true) × (own (fore_in founding.old) (TextRecord body text.now) ≡ Some (fore_in founding.new))) }
    ensures grounded { OnOk result (IsGrounded founding.new) }
    ensures bad { IfErr result (Fails (own (fore_in founding.old) (TextRecord body text.now) ≡ None) place.gate) }
    ensures noted { (end : ℕ) → place.gate + 5 + place.length ≤ end → FoundNoted end founding.old → OnOk result (FoundNoted end founding.new) }
    ensures stored { (payloads : List (List ℕ)) → LiesAt payloads place.gate place.length (record_bytes (TextRecord body text.now)) → FoundStored payloads founding.old
        → OnOk result (FoundStored payloads founding.new) }
{
    if !founding.text_stands(body) {
        return Err(StartFault::Damaged { place: place.gate });
    }
    match founding.text(body, text, place, body_text_from()) {
        Ok(()) => Ok(true),
        Err(NoMemory) => Err(StartFault::NoMemory),
    }
}

/// Whether the item of a Kept can stand.
fn can_keep(founding: &Founding, item: &Item) -> bool
    requires { IsFormed item.now }
    ensures { result ≡ kept_stands founding.now.house founding.now.based item.now }
{
    is_formed(founding.house(), item) && founding.can_be_kept(item)
}

/// Keeps the item of a Kept, where it can stand.
fn keep_item(
    alloc: Global,
    founding: &mut Founding,
    item: Item,
    place: Place,
) -> Result<bool, StartFault>
    requires spelled { HasSpelling (KeptRecord item) }
    requires long { place.length ≡ length (record_bytes (KeptRecord item)) }
    requires grounded { IsGrounded founding.old }
    ensures goes { IfOk result (λ went. (went ≡ true) × (own (fore_in founding.old) (KeptRecord item) ≡ Some (fore_in founding.new))) }
    ensures grounded { OnOk result (IsGrounded founding.new) }
    ensures bad { IfErr result (Fails (own (fore_in founding.old) (KeptRecord item) ≡ None) place.gate) }
    ensures noted { (end : ℕ) → place.gate + 5 + place.length ≤ end → FoundNoted end founding.old → OnOk result (FoundNoted end founding.new) }
    ensures stored { (payloads : List (List ℕ)) → LiesAt payloads place.gate place.length (record_bytes (KeptRecord item)) → FoundStored payloads founding.old
        → OnOk result (FoundStored payloads founding.new) }
{
    spelled_kept_items_are_formed();
    if !can_keep(founding, &item) {
        drop(item);
        return Err(StartFault::Damaged { place: place.gate });
    }
    let _length = length_at(place);
    let from = kept_text_from(&item);
    match founding.keep(alloc, item, place, from) {
        Ok(()) => Ok(true),
        Err(NoMemory) => Err(StartFault::NoMemory),
    }
}

/// Goes on with a record, where it goes on with the front, and answers whether it does.
fn go_with(
    alloc: Global,
    founding: &mut Founding,
    what: JournalRecord,
    place: Place,
) -> Result<bool, StartFault>
    requires spelled { HasSpelling what }
    requires long { place.length ≡ length (record_bytes what) }
    requires grounded { IsGrounded founding.old }
    ensures goes { IfOk result (λ went. GoesWith founding.old what went founding.new) }
    ensures grounded { OnOk result (IsGrounded founding.new) }
    ensures bad { IfErr result (Fails (fits (Some (fore_in founding.old)) what ≡ false) place.gate) }
    ensures noted { (end : ℕ) → place.gate + 5 + place.length ≤ end → FoundNoted end founding.old → OnOk result (FoundNoted end founding.new) }
    ensures stored { (payloads : List (List ℕ)) → LiesAt payloads place.gate place.length (record_bytes what) → FoundStored payloads founding.old
        → OnOk result (FoundStored payloads founding.new) }
{
    match what {
        JournalRecord::Text { body, text } => take_text(founding, body, &text, place),
        JournalRecord::Kept(item) => keep_item(alloc, founding, item, place),
        JournalRecord::Base {
            conf,
            rows,
            stamps,
            reports,
            ..
        } => {
            drop(conf);
            drop(rows);
            drop(stamps);
            drop(reports);
            Err(StartFault::Damaged { place: place.gate })
        }
        other => {
            drop(other);
            Ok(false)
        }
    }
}

/// Notes the text of a Text that is not read, where it can stand.
fn take_lying(
    founding: &mut Founding,
    body: Body,
    text: PastText,
    place: Place,
    from: u32,
) -> Result<bool, StartFault>
    requires spelled { HasSpelling (TextRecord body text) }
    requires long { place.length ≡ length (record_bytes (TextRecord body text)) }
    requires lies { IsTextAt (record_bytes (TextRecord body text)) from text }
    requires grounded { IsGrounded founding.old }
    ensures goes { IfOk result (λ went. (went ≡ true) × (own (fore_in founding.old) (TextRecord body text) ≡ Some (fore_in founding.new))) }
    ensures grounded { OnOk result (IsGrounded founding.new) }
    ensures bad { IfErr result (Fails (own (fore_in founding.old) (TextRecord body text) ≡ None) place.gate) }
    ensures noted { (end : ℕ) → place.gate + 5 + place.length ≤ end → FoundNoted end founding.old → OnOk result (FoundNoted end founding.new) }
    ensures stored { (payloads : List (List ℕ)) → LiesAt payloads place.gate place.length (record_bytes (TextRecord body text)) → FoundStored payloads founding.old
        → OnOk result (FoundStored payloads founding.new) }
{
    if !founding.text_stands(body) {
        drop(text);
        return Err(StartFault::Damaged { place: place.gate });
    }
    match founding.text_lying(body, text, place, from) {
        Ok(()) => Ok(true),
        Err(NoMemory) => Err(StartFault::NoMemory),
    }
}

/// Keeps the item of a Kept whose text is not read and not looked at, where it can stand.
fn keep_lying(
    alloc: Global,
    founding: &mut Founding,
    item: Item,
    text: PastText,
    place: Place,
    from: u32,
) -> Result<bool, StartFault>
    requires bare { HasSpelling (KeptRecord item) }
    requires spelled { HasSpelling (KeptRecord (whole item text)) }
    requires empty { text_in item.deed ≡ Some [] }
    requires plain { is_notice item.deed ≡ false }
    requires long { place.length ≡ length (record_bytes (KeptRecord (whole item text))) }
    requires lies { IsTextAt (record_bytes (KeptRecord (whole item text))) from text }
    requires unfiltered { (store_based founding.old.house founding.old.based).conf.filters ≡ [] }
    requires grounded { IsGrounded founding.old }
    ensures goes { IfOk result (λ went. (went ≡ true) × (own (fore_in founding.old) (KeptRecord (whole item text)) ≡ Some (fore_in founding.new))) }
    ensures grounded { OnOk result (IsGrounded founding.new) }
    ensures bad { IfErr result (Fails (own (fore_in founding.old) (KeptRecord (whole item text)) ≡ None) place.gate) }
    ensures noted { (end : ℕ) → place.gate + 5 + place.length ≤ end → FoundNoted end founding.old → OnOk result (FoundNoted end founding.new) }
    ensures stored { (payloads : List (List ℕ)) → LiesAt payloads place.gate place.length (record_bytes (KeptRecord (whole item text))) → FoundStored payloads founding.old
        → OnOk result (FoundStored payloads founding.new) }
{
    spelled_kept_items_are_formed();
    if !can_keep(founding, &item) {
        drop(item);
        drop(text);
        return Err(StartFault::Damaged { place: place.gate });
    }
    match founding.keep_lying(alloc, item, text, place, from) {
        Ok(()) => Ok(true),
        Err(NoMemory) => Err(StartFault::NoMemory),
    }
}

/// Goes on with a record whose text is not read and not looked at, where it goes on with the front, and answers whether it does.
fn go_with_head(
    alloc: Global,
    founding: &mut Founding,
    head: HeadOf,
    place: Place,
) -> Result<bool, StartFault>
    requires head { IsHead head }
    requires long { place.length ≡ length (record_bytes (headed head)) }
    requires unlooked { brings_kept head.what ≡ true → (store_based founding.old.house founding.old.based).conf.filters ≡ [] }
    requires grounded { IsGrounded founding.old }
    ensures goes { IfOk result (λ went. GoesWith founding.old (headed head) went founding.new) }
    ensures grounded { OnOk result (IsGrounded founding.new) }
    ensures bad { IfErr result (Fails (fits (Some (fore_in founding.old)) (headed head) ≡ false) place.gate) }
    ensures noted { (end : ℕ) → place.gate + 5 + place.length ≤ end → FoundNoted end founding.old → OnOk result (FoundNoted end founding.new) }
    ensures stored { (payloads : List (List ℕ)) → LiesAt payloads place.gate place.length (record_bytes (headed head)) → FoundStored payloads founding.old
        → OnOk result (FoundStored payloads founding.new) }
{
    let HeadOf { what, text, from } = head;
    match what {
        JournalRecord::Text { body, text: empty } => {
            drop(empty);
            take_lying(founding, body, text, place, from)
        }
        JournalRecord::Kept(item) => keep_lying(alloc, founding, item, text, place, from),
        other => {
            drop(other);
            drop(text);
            Ok(false)
        }
    }
}

/// The same of the whole record at a place.
fn go_on_whole<D: Disk>(
    alloc: Global,
    past: &mut Past<D>,
    founding: &mut Founding,
    place: Place,
) -> Result<bool, StartFault>
    requires place { place.gate + 5 + place.length ≤ past.old.end }
    requires noted { FoundNoted past.old.end founding.old }
    requires grounded { IsGrounded founding.old }
    ensures { GoesOnAt D.told place past.old past.new founding.old founding.new result }
{
    one_spelling();
    match record_at(alloc, past, place) {
        Ok(what) => go_with(alloc, founding, what, place),
        Err(fault) => Err(fault),
    }
}

/// Whether a record is performed on a store in which a filter may look at its text.
fn is_looked_at(founding: &Founding, what: &JournalRecord) -> bool
    ensures { result ≡ false → brings_kept what.now ≡ true → (store_based founding.now.house founding.now.based).conf.filters ≡ [] }
{
    match what {
        JournalRecord::Kept(_) => !founding.is_unfiltered(),
        _ => false,
    }
}

/// The same of the record at a place, of which the text is not read where that can be done.
fn go_on_at<D: Disk>(
    alloc: Global,
    past: &mut Past<D>,
    founding: &mut Founding,
    place: Place,
) -> Result<bool, StartFault>
    requires place { place.gate + 5 + place.length ≤ past.old.end }
    requires noted { FoundNoted past.old.end founding.old }
    requires grounded { IsGrounded founding.old }
    ensures { GoesOnAt D.told place past.old past.new founding.old founding.new result }
{
    one_spelling();
    match head_at(alloc, past, place) {
        Ok(Some(head)) => {
            if is_looked_at(founding, &head.what) {
                drop(head);
                return go_on_whole(alloc, past, founding, place);
            }
            go_with_head(alloc, founding, head, place)
        }
        Ok(None) => go_on_whole(alloc, past, founding, place),
        Err(fault) => Err(fault),
    }
}

/// Goes on with the records at places, as long as they go on with the front; and tells how many did.
fn go_on<D: Disk>(
    alloc: Global,
    past: &mut Past<D>,
    founding: &mut Founding,
    places: &[Place],
) -> Result<usize, StartFault>
    requires places { All (λ place. place.gate + 5 + place.length ≤ past.old.end) places.now }
    requires noted { FoundNoted past.old.end founding.old }
    requires grounded { IsGrounded founding.old }
    ensures went { (records : List TheRecord) (payloads : List (List ℕ)) → Holds (D.told past.old.disk) (payloads_of records ++ payloads)
        → places.now ≡ places_from (length (sealed (payloads_of records))) payloads → fore_of records ≡ Some (fore_in founding.old)
        → IfOk result (λ count. WentOn records payloads count founding.new) }
    ensures few { IfOk result (λ count. count ≤ length places.now) }
    ensures bad { (records : List TheRecord) (payloads : List (List ℕ)) → Holds (D.told past.old.disk) (payloads_of records ++ payloads)
        → places.now ≡ places_from (length (sealed (payloads_of records))) payloads → fore_of records ≡ Some (fore_in founding.old)
        → IfErr result (StopsInFront (payloads_of records ++ payloads)) }
    ensures noted { OnOk result (FoundNoted past.old.end founding.new) }
    ensures grounded { OnOk result (IsGrounded founding.new) }
    ensures stored { (records : List TheRecord) (payloads : List (List ℕ)) → Holds (D.told past.old.disk) (payloads_of records ++ payloads)
        → places.now ≡ places_from (length (sealed (payloads_of records))) payloads → FoundStored (payloads_of records ++ payloads) founding.old
        → OnOk result (FoundStored (payloads_of records ++ payloads) founding.new) }
    ensures still { IsPastRead D.told past.old past.new }
    ensures ok { OnOk result ((D.told past.new.disk).failed_reads ≡ (D.told past.old.disk).failed_reads) }
    ensures fault { IfErr result (ReadCounts (D.told past.old.disk) (D.told past.new.disk)) }
{
    let mut count = 0;
    for place in places {
        match go_on_at(alloc, past, founding, *place) {
            Ok(true) => count += 1,
            Ok(false) => return Ok(count),
            Err(fault) => return Err(fault),
        }
    }
    Ok(count)
}

// ---- all of it

/// The desk that a base and what stands behind it leave. Where it lacks something the gate of the Base is told.
fn settled(founding: Founding, gate: u64) -> Result<Desk, StartFault>
    ensures kept { IfOk result (λ desk. settles (fore_in founding) ≡ Some desk.kept) }
    ensures kept_is { IfOk result (λ desk. desk.kept ≡ kept_in founding) }
    ensures notes { IfOk result (λ desk. desk.notes ≡ founding.notes) }
    ensures marks { IfOk result (λ desk. desk.marks ≡ []) }
    ensures bad { IfErr result (Fails (settles (fore_in founding) ≡ None) gate) }
{
    match founding.settle() {
        Some(desk) => Ok(desk),
        None => Err(StartFault::Damaged { place: gate }),
    }
}

/// Whether a front of so many records, of all that a journal has, ends in a frame that is cut.
fn ends_there(cut: bool, count: usize, all: usize) -> bool
    ensures { result ≡ (cut && (count == all)) }
{
    cut && count == all
}

/// The same, where the front does not end in a frame that is cut: of such a one its own gate is told.
fn settled_at<D: Disk>(
    past: &Past<D>,
    founding: Founding,
    gate: u64,
    ends_cut: bool,
) -> Result<Desk, StartFault>
    ensures kept { IfOk result (λ desk. settles (fore_in founding) ≡ Some desk.kept) }
    ensures kept_is { IfOk result (λ desk. desk.kept ≡ kept_in founding) }
    ensures notes { IfOk result (λ desk. desk.notes ≡ founding.notes) }
    ensures marks { IfOk result (λ desk. desk.marks ≡ []) }
    ensures whole { OnOk result (ends_cut ≡ false) }
    ensures bad { IfErr result (Fails (LacksOrEnds (fore_in founding) ends_cut) (if ends_cut then past.now.end else gate)) }
{
    if ends_cut {
        drop(founding);
        return Err(StartFault::Damaged { place: past.end() });
    }
    settled(founding, gate)
}

/// Reads what stands behind a Base, and begins a desk with it.
fn begin_on<D: Disk>(
    alloc: Global,
    past: &mut Past<D>,
    places: &[Place],
    cut: bool,
    founding: Founding,
) -> Result<(Desk, usize), StartFault>
    requires some { 2 ≤ length places.now }
    requires places { All (λ place. place.gate + 5 + place.length ≤ past.old.end) places.now }
    requires noted { FoundNoted past.old.end founding }
    requires grounded { IsGrounded founding }
    ensures opened { (payloads : List (List ℕ)) → Holds (D.told past.old.disk) payloads → places.now ≡ places_from 0 payloads
        → BeginsBased payloads founding → IfOk result (λ front. Opens payloads front.0.kept (drop front.1 places.now)) }
    ensures few { IfOk result (λ front. front.1 ≤ length places.now) }
    ensures texts { (payloads : List (List ℕ)) → Holds (D.told past.old.disk) payloads → places.now ≡ places_from 0 payloads
        → BeginsBased payloads founding → IfOk result (λ front. TextsHeld (D.told past.new.disk) payloads front.0.kept front.0.notes front.0.marks) }
    ensures noted { IfOk result (λ front. AreNoted past.old.end front.0) }
    ensures bad { (payloads : List (List ℕ)) → Holds (D.told past.old.disk) payloads → places.now ≡ places_from 0 payloads
        → BeginsBased payloads founding → IfErr result (FrontBreaksFor cut past.old.end payloads) }
    ensures still { IsPastRead D.told past.old past.new }
    ensures ok { OnOk result ((D.told past.new.disk).failed_reads ≡ (D.told past.old.disk).failed_reads) }
    ensures fault { IfErr result (ReadCounts (D.told past.old.disk) (D.told past.new.disk)) }
{
    records_begin_with_their_kind();
    let mut founding = founding;
    match go_on(alloc, past, &mut founding, after(places, 2)) {
        Ok(count) => {
            let gate = nth(places, 1).gate;
            let ends_cut = ends_there(cut, count + 2, places.len());
            match settled_at(past, founding, gate, ends_cut) {
                Ok(desk) => Ok((desk, count + 2)),
                Err(fault) => Err(fault),
            }
        }
        Err(fault) => {
            drop(founding);
            Err(fault)
        }
    }
}

/// A desk on which nothing was done yet.
fn begin_anew(alloc: Global, house: House, conf: Conf) -> Result<(Desk, usize), StartFault>
    requires { IsTrue (begins house conf) }
    ensures kept { IfOk result (λ front. front.0.kept ≡ new_desk house conf) }
    ensures notes { IfOk result (λ front. front.0.notes ≡ []) }
    ensures marks { IfOk result (λ front. front.0.marks ≡ []) }
    ensures one { IfOk result (λ front. front.1 ≡ 1) }
    ensures memory { IfErr result (λ fault. fault ≡ StartFault.NoMemory) }
{
    match Desk::new(alloc, house, conf) {
        Ok(desk) => Ok((desk, 1)),
        Err(NoMemory) => Err(StartFault::NoMemory),
    }
}

/// Begins a desk on a Base, and with what stands behind it.
fn begin_based<D: Disk>(
    alloc: Global,
    past: &mut Past<D>,
    places: &[Place],
    cut: bool,
    house: House,
    conf: Conf,
    base: BaseParts,
) -> Result<(Desk, usize), StartFault>
    requires begins { IsTrue (begins house conf) }
    requires some { 2 ≤ length places.now }
    requires spelled { HasSpelling (record_of base) }
    requires places { All (λ place. place.gate + 5 + place.length ≤ past.old.end) places.now }
    ensures opened { (payloads : List (List ℕ)) → Holds (D.told past.old.disk) payloads → places.now ≡ places_from 0 payloads
        → BeginsWith payloads house conf → SecondIs payloads (Some base) → IfOk result (λ front. Opens payloads front.0.kept (drop front.1 places.now)) }
    ensures few { IfOk result (λ front. front.1 ≤ length places.now) }
    ensures texts { (payloads : List (List ℕ)) → Holds (D.told past.old.disk) payloads → places.now ≡ places_from 0 payloads
        → BeginsWith payloads house conf → SecondIs payloads (Some base) → IfOk result (λ front. TextsHeld (D.told past.new.disk) payloads front.0.kept front.0.notes front.0.marks) }
    ensures noted { IfOk result (λ front. AreNoted past.old.end front.0) }
    ensures bad { (payloads : List (List ℕ)) → Holds (D.told past.old.disk) payloads → places.now ≡ places_from 0 payloads
        → BeginsWith payloads house conf → SecondIs payloads (Some base) → IfErr result (FrontBreaksFor cut past.old.end payloads) }
    ensures still { IsPastRead D.told past.old past.new }
    ensures ok { OnOk result ((D.told past.new.disk).failed_reads ≡ (D.told past.old.disk).failed_reads) }
    ensures fault { IfErr result (ReadCounts (D.told past.old.disk) (D.told past.new.disk)) }
{
    one_spelling();
    match founded_on(alloc, house, conf, base, nth(places, 1).gate) {
        Ok(founding) => begin_on(alloc, past, places, cut, founding),
        Err(fault) => Err(fault),
    }
}

/// Reads what stands behind the Format of a journal, as long as it goes on with it, and begins a desk with it.
fn begin_with<D: Disk>(
    alloc: Global,
    past: &mut Past<D>,
    places: &[Place],
    cut: bool,
    house: House,
    conf: Conf,
) -> Result<(Desk, usize), StartFault>
    requires begins { IsTrue (begins house conf) }
    requires some { 0 < length places.now }
    requires places { All (λ place. place.gate + 5 + place.length ≤ past.old.end) places.now }
    ensures opened { (payloads : List (List ℕ)) → Holds (D.told past.old.disk) payloads → places.now ≡ places_from 0 payloads
        → BeginsWith payloads house conf → IfOk result (λ front. Opens payloads front.0.kept (drop front.1 places.now)) }
    ensures few { IfOk result (λ front. front.1 ≤ length places.now) }
    ensures texts { (payloads : List (List ℕ)) → Holds (D.told past.old.disk) payloads → places.now ≡ places_from 0 payloads
        → BeginsWith payloads house conf → IfOk result (λ front. TextsHeld (D.told past.new.disk) payloads front.0.kept front.0.notes front.0.marks) }
    ensures noted { IfOk result (λ front. AreNoted past.old.end front.0) }
    ensures bad { (payloads : List (List ℕ)) → Holds (D.told past.old.disk) payloads → places.now ≡ places_from 0 payloads
        → BeginsWith payloads house conf → IfErr result (FrontBreaksFor cut past.old.end payloads) }
    ensures still { IsPastRead D.told past.old past.new }
    ensures ok { OnOk result ((D.told past.new.disk).failed_reads ≡ (D.told past.old.disk).failed_reads) }
    ensures fault { IfErr result (ReadCounts (D.told past.old.disk) (D.told past.new.disk)) }
{
    records_begin_with_their_kind();
    match base_behind(alloc, past, places) {
        Ok(Some(base)) => begin_based(alloc, past, places, cut, house, conf, base),
        Ok(None) => begin_anew(alloc, house, conf),
        Err(fault) => {
            drop(house);
            drop(conf);
            Err(fault)
        }
    }
}

/// Reads the records that a journal opens with, and begins a desk with them; and tells how many they are. Behind the last place stands a
/// frame that is cut, or none.
pub(crate) fn begin_at<D: Disk>(
    alloc: Global,
    past: &mut Past<D>,
    places: &[Place],
    cut: bool,
) -> Result<(Desk, usize), StartFault>
    requires some { 0 < length places.now }
    requires places { All (λ place. place.gate + 5 + place.length ≤ past.old.end) places.now }
    ensures opened { (payloads : List (List ℕ)) → Holds (D.told past.old.disk) payloads → places.now ≡ places_from 0 payloads
        → IfOk result (λ front. Opens payloads front.0.kept (drop front.1 places.now)) }
    ensures few { IfOk result (λ front. front.1 ≤ length places.now) }
    ensures texts { (payloads : List (List ℕ)) → Holds (D.told past.old.disk) payloads → places.now ≡ places_from 0 payloads
        → IfOk result (λ front. TextsHeld (D.told past.new.disk) payloads front.0.kept front.0.notes front.0.marks) }
    ensures noted { IfOk result (λ front. AreNoted past.old.end front.0) }
    ensures bad { (payloads : List (List ℕ)) → Holds (D.told past.old.disk) payloads → places.now ≡ places_from 0 payloads
        → IfErr result (FrontBreaksFor cut past.old.end payloads) }
    ensures still { IsPastRead D.told past.old past.new }
    ensures ok { OnOk result ((D.told past.new.disk).failed_reads ≡ (D.told past.old.disk).failed_reads) }
    ensures fault { IfErr result (ReadCounts (D.told past.old.disk) (D.told past.new.disk)) }
{
    match opening_at(alloc, past, nth(places, 0)) {
        Ok((house, conf)) => begin_with(alloc, past, places, cut, house, conf),
        Err(fault) => Err(fault),
    }
}
