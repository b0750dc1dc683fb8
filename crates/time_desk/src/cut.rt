//! What a cut at a point is made of: the payloads of Format and Base, the bodies in the base, and the later items.
//!
//! The Format of a cut is the journal's own first payload, byte for byte, also in a cut of a cut: aliases of acts may have names
//! that a Format may not. So the desk keeps the opening configuration beside the base's.
//!
//! A Base or a Kept record without a spelling is told as want of memory by `Desk::cut_parts`, as a record that is to be sealed
//! is: so `write_cut`'s condition is met. Each has one where it takes no more bytes than a frame can hold, and where eight bytes
//! hold the UIDs of the base (`cuts_can_be_written`).
ghost use Rattle.std.specs.Prelude.{◌≡◌, ◌<◌, ◌≤◌, ◌+◌, ◌==◌, ◌&&◌, ◌++◌, ◌∷◌, [], not, ℕ, List, Some, length, map, take, drop, is_some, IsTrue, IfOk, IfErr, IsErrOf, OnOk, false};
ghost use Rattle.std.specs.List.{AllByRecursion, list_all};
ghost use Rattle.verb_core.specs.declared.item.Item.{Item as TheItem};
ghost use Rattle.verb_core.specs.Items.{IsWellFormed, text_in};
ghost use Rattle.verb_core.specs.Names.{is_empty};
ghost use Rattle.verb_core.specs.Step.{run};
ghost use Rattle.verb_core.specs.Store.{IsValid};
ghost use Rattle.verb_bytes.specs.declared.journal.JournalRecord.TheVariants.{Base as BaseRecord, Format, Kept as KeptRecord};
ghost use Rattle.verb_bytes.specs.Spelling.{HasSpelling, record_bytes};
ghost use Rattle.store_kept.specs.Kept.{IsRun};
ghost use Rattle.store_kept.specs.Texts.{all_bodies, has_text_kept};
ghost use Rattle.replay_crew.specs.Hearing.{CountsTextReads, HoldsOf, StoresOf, TellsAll};
ghost use Rattle.repair_desk.specs.Repairs.{position};
ghost use Rattle.cycle_rules.specs.Cutting.{bodies_of, cut};
ghost use Rattle.mail_desk.specs.Counting.{bare_item};
ghost use Rattle.mail_desk.specs.Timeline.{body_of};
ghost use Rattle.desk_journal.specs.Reading.{IsStill};
ghost use Rattle.desk_journal.specs.Stored.{HoldsTexts, MarkedBefore, TextsNoted, store_at};
ghost use Rattle.desk_journal.specs.Telling.{HoldsHeld, IsOnlyRead, IsPastRead};
ghost use Rattle.time_desk.specs.Cutting.{AreParts, Cuts, CutsNone, LedBy, bodies_once, body_key, key_body, keys_once};
ghost use Rattle.time_desk.specs.Planning.{BodiesCause};
ghost use Rattle.time_desk.specs.Replaying.{ToldOr, rests_on_disk, some_deliver, store_reads};
ghost use Rattle.time_desk.specs.Unfiltered.{are_unfiltered, brings_no_filter};
ghost use Rattle.time_desk.specs.Serving.{CanBegin};

use crate::beginning::beginning;
use crate::deliveries::Deliveries;
use crate::plan::copies;
use crate::redo::new_texts;
use crate::{CycleFault, Desk};
use base_cut::{BodyList, CutParts};
use box_store::{Steps, Store};
use desk_journal::{Journal, Past, Reading, house_bytes};
use mail_cycle::{Beginning, Replayed, replay_in_order};
use mail_desk::laws::bodies_have_texts;
use repair_desk::position_of;
use seal_log::ReadFault;
use std::alloc::Global;
use std::collections::BTreeSet;
use std::marker::Brand;
use std::sync::ledger::{Blank, Ledger};
use stored_items::{StoredItem, StoredItems};
use undo_base::{NoMemory, Text};
use undo_outside::Disk;
use verb_bytes::{spell_base, spell_kept};
use verb_core::{Act, Bodies, BodiesFault, Body, BoxId, Deed, Entry, Item, Items, Mailbox};

// ---- texts that nobody looks at

/// Texts that are all empty, of which none is read.
#[derive(Drop)]
struct NoTexts;

impl Bodies for NoTexts {
    ghost use Rattle.time_desk.specs.Unfiltered.{LeadsAnywhere, all_empty, goes_on, to_itself};

    ghost told = { λ _. all_empty };

    ghost leads = { LeadsAnywhere };

    fn text(&mut self, alloc: Global, _body: Body) -> Result<Text, BodiesFault> {
        Ok(Text::new(alloc))
    }

    ghost leads_to_itself = { to_itself };

    ghost leads_on = { goes_on };
}

/// Whether an act brings no filter.
fn act_brings_no_filter(act: &Act) -> bool
    ensures { result ≡ brings_no_filter (Deed.Act act.now) }
{
    match act {
        Act::SetFilter(_) => false,
        _ => true,
    }
}

/// Whether an item brings no filter.
fn item_brings_no_filter(item: &StoredItem) -> bool
    ensures { result ≡ brings_no_filter item.now.deed }
{
    match &item.item().deed {
        Deed::Deliver { .. } => true,
        Deed::Append { .. } => true,
        Deed::Fetch { .. } => true,
        Deed::Store { .. } => true,
        Deed::Copy { .. } => true,
        Deed::List { .. } => true,
        Deed::Status { .. } => true,
        Deed::Select { .. } => true,
        Deed::Expunge { .. } => true,
        Deed::Close { .. } => true,
        Deed::Create { .. } => true,
        Deed::Rename { .. } => true,
        Deed::Delete { .. } => true,
        Deed::Act(act) => act_brings_no_filter(act),
        Deed::Notice { .. } => true,
    }
}

/// Whether no filter is in force.
fn has_no_filter(store: &Store) -> bool
    ensures { result ≡ is_empty store.now.store.conf.filters }
{
    store.conf().filters.is_empty()
}

/// Whether no item brings a filter.
fn bring_no_filter(items: &[StoredItem]) -> bool
    ensures { result ≡ list_all (λ (i : TheItem). brings_no_filter i.deed) items.now }
{
    items.iter().all(|item| item_brings_no_filter(item))
}

/// Whether nothing looks at the text of an item that is performed on a store: no filter is in force, and none comes.
fn none_looks(store: &Store, items: &[StoredItem]) -> bool
    ensures { result ≡ are_unfiltered store.now.store items.now }
{
    has_no_filter(store) && bring_no_filter(items)
}

// ---- the store of the base

/// The store that more items lead to, with nothing counted, over a counter that is made of the blank ledger.
fn led_over<B: Bodies, L: Ledger>(
    alloc: Global,
    store: Store,
    bodies: &mut B,
    items: StoredItems,
    blank: Blank,
) -> Result<Store, BodiesFault>
    requires name { blank.name ≡ L.name }
    requires parts { blank.parts ≡ L.parts }
    requires some { 0 < blank.parts }
    requires valid { IsValid store.store }
    requires formed { AllByRecursion (IsWellFormed store.store.house) items }
    requires held { AllByRecursion (HoldsOf (B.told bodies.old)) items }
    ensures heard { IfOk result (λ made. LedBy store.store items made.store) }
    ensures store { (B.told bodies.old).honest → AllByRecursion (StoresOf (B.told bodies.old)) items → IfOk result (λ made. made.store ≡ run store.store items) }
    ensures reads { CountsTextReads (B.told bodies.old) (B.told bodies.new) result }
    ensures leads { B.leads bodies.old bodies.new }
{
    let mut steps: Steps<L> = Steps::new(blank);
    let count = items.len();
    match replay_in_order(alloc, store, bodies, items, count, &mut steps) {
        Ok(made) => Ok(store_of(made)),
        Err(fault) => Err(fault),
    }
}

/// The store of items that were performed.
fn store_of(made: Replayed) -> Store
    ensures { result ≡ made.store }
{
    let Replayed {
        items,
        store,
        shows,
    } = made;
    drop(items);
    drop(shows);
    store
}

/// The store that items lead to, each delivery with its text, which is read.
fn led_reading<B: Bodies>(
    alloc: Global,
    store: Store,
    bodies: &mut B,
    items: &[StoredItem],
) -> Result<Store, BodiesFault>
    requires valid { IsValid store.store }
    requires formed { AllByRecursion (IsWellFormed store.store.house) items.now }
    requires held { AllByRecursion (HoldsOf (B.told bodies.old)) items.now }
    ensures heard { IfOk result (λ made. LedBy store.store items.now made.store) }
    ensures store { (B.told bodies.old).honest → AllByRecursion (StoresOf (B.told bodies.old)) items.now → IfOk result (λ made. made.store ≡ run store.store items.now) }
    ensures reads { CountsTextReads (B.told bodies.old) (B.told bodies.new) result }
    ensures leads { B.leads bodies.old bodies.new }
{
    match copies(alloc, items) {
        Ok(copies) => led_over::<B, Brand>(
            alloc,
            store,
            bodies,
            StoredItems::from_vec(copies),
            Blank::new(1),
        ),
        Err(NoMemory) => {
            drop(store);
            Err(BodiesFault::NoMemory)
        }
    }
}

/// The same where nothing looks at a text. None is read.
fn led_unread(alloc: Global, store: Store, items: &[StoredItem]) -> Result<Store, BodiesFault>
    requires valid { IsValid store.store }
    requires formed { AllByRecursion (IsWellFormed store.store.house) items.now }
    requires unread { IsTrue (are_unfiltered store.store items.now) }
    ensures store { IfOk result (λ made. made.store ≡ run store.store items.now) }
    ensures never { IsErrOf result BodiesFault.Failed → ⊥ }
{
    led_reading(alloc, store, &mut NoTexts, items)
}

/// The store that items lead to from a beginning on. Their texts are read only where a filter may look at one.
fn led<B: Bodies>(
    alloc: Global,
    store: Store,
    bodies: &mut B,
    items: &[StoredItem],
) -> Result<Store, BodiesFault>
    requires valid { IsValid store.store }
    requires formed { AllByRecursion (IsWellFormed store.store.house) items.now }
    requires held { AllByRecursion (HoldsOf (B.told bodies.old)) items.now }
    ensures heard { IfOk result (λ made. LedBy store.store items.now made.store) }
    ensures store { (B.told bodies.old).honest → AllByRecursion (StoresOf (B.told bodies.old)) items.now → IfOk result (λ made. made.store ≡ run store.store items.now) }
    ensures unread { IsTrue (are_unfiltered store.store items.now) → IfOk result (λ made. made.store ≡ run store.store items.now) }
    ensures due { IsErrOf result BodiesFault.Failed → are_unfiltered store.store items.now ≡ false }
    ensures reads { CountsTextReads (B.told bodies.old) (B.told bodies.new) result }
    ensures leads { B.leads bodies.old bodies.new }
{
    if none_looks(&store, items) {
        led_unread(alloc, store, items)
    } else {
        led_reading(alloc, store, bodies, items)
    }
}

/// The items from one place of the timeline to another.
fn between(items: &[StoredItem], from: usize, to: usize) -> &[StoredItem]
    requires from { from ≤ to }
    requires to { to ≤ length items.now }
    ensures { result.now ≡ drop from (take to items.now) }
{
    items.split_at(to).0.split_at(from).1
}

/// The store that the items through a place led to, from a beginning at or before it on.
fn led_behind<B: Bodies>(
    alloc: Global,
    desk: &mail_desk::Desk,
    first: Beginning,
    bodies: &mut B,
    place: usize,
) -> Result<Store, BodiesFault>
    requires place { place ≤ length desk.now.kept.timeline }
    requires serves { CanBegin desk.now.kept place first }
    requires texts { TellsAll (B.told bodies.old) (take place desk.now.kept.timeline) }
    ensures store { (B.told bodies.old).honest → first.store.store ≡ store_at desk.now.kept first.count → IfOk result (λ made. made.store ≡ store_at desk.now.kept place) }
    ensures unread { IsTrue (are_unfiltered first.store.store (drop first.count (take place desk.now.kept.timeline))) → first.store.store ≡ store_at desk.now.kept first.count
        → IfOk result (λ made. made.store ≡ store_at desk.now.kept place) }
    ensures texts { IfOk result (λ made. IsTrue (all_bodies (has_text_kept desk.now.kept) made.store.boxes)) }
    ensures due { IsErrOf result BodiesFault.Failed → are_unfiltered first.store.store (drop first.count (take place desk.now.kept.timeline)) ≡ false }
    ensures reads { CountsTextReads (B.told bodies.old) (B.told bodies.new) result }
    ensures leads { B.leads bodies.old bodies.new }
{
    desk.stands();
    bodies_have_texts();
    let Beginning { store, count } = first;
    led(
        alloc,
        store,
        bodies,
        between(desk.all_items(), count, place),
    )
}

/// The same, with texts read before a gate.
fn store_from<D: Disk>(
    alloc: Global,
    past: &mut Past<D>,
    desk: &mail_desk::Desk,
    first: Beginning,
    place: usize,
) -> Result<Store, BodiesFault>
    requires noted { TextsNoted past.old.end desk.now.notes desk.now.kept }
    requires place { place ≤ length desk.now.kept.timeline }
    requires serves { CanBegin desk.now.kept place first }
    ensures store { ToldOr (HoldsHeld (D.told past.old.disk) desk.now) (not (are_unfiltered first.store.store (drop first.count (take place desk.now.kept.timeline))) && some_deliver (take place desk.now.kept.timeline))
        → first.store.store ≡ store_at desk.now.kept first.count → IfOk result (λ made. made.store ≡ store_at desk.now.kept place) }
    ensures texts { IfOk result (λ made. IsTrue (all_bodies (has_text_kept desk.now.kept) made.store.boxes)) }
    ensures due { IsErrOf result BodiesFault.Failed
        → (are_unfiltered first.store.store (drop first.count (take place desk.now.kept.timeline)) ≡ false) × IsTrue (some_deliver (take place desk.now.kept.timeline)) }
    ensures cause { BodiesCause (D.told past.old.disk) (D.told past.new.disk) result }
    ensures still { IsPastRead D.told past.old past.new }
{
    desk.stands();
    match new_texts(alloc, &[]) {
        Ok(texts) => {
            let reading = Reading::of(past, desk, &texts, desk.next());
            let items = desk.all_items().split_at(place).0;
            let mut bodies = Deliveries { reading, items };
            led_behind(alloc, desk, first, &mut bodies, place)
        }
        Err(fault) => {
            drop(first);
            Err(fault)
        }
    }
}

/// The same from the newest snapshot that can serve.
fn store_through<D: Disk>(
    alloc: Global,
    past: &mut Past<D>,
    desk: &mail_desk::Desk,
    place: usize,
) -> Result<Store, BodiesFault>
    requires noted { TextsNoted past.old.end desk.now.notes desk.now.kept }
    requires marked { MarkedBefore past.old.end desk.now.marks }
    requires place { place ≤ length desk.now.kept.timeline }
    ensures store { ToldOr (HoldsHeld (D.told past.old.disk) desk.now) (store_reads desk.now.kept place) → IfOk result (λ made. made.store ≡ store_at desk.now.kept place) }
    ensures texts { IfOk result (λ made. IsTrue (all_bodies (has_text_kept desk.now.kept) made.store.boxes)) }
    ensures due { IsErrOf result BodiesFault.Failed → IsTrue (store_reads desk.now.kept place) }
    ensures cause { BodiesCause (D.told past.old.disk) (D.told past.new.disk) result }
    ensures still { IsPastRead D.told past.old past.new }
{
    match beginning(alloc, past, desk, place) {
        Ok(first) => store_from(alloc, past, desk, first, place),
        Err(ReadFault::Disk) => Err(BodiesFault::Failed),
        Err(ReadFault::NoMemory) => Err(BodiesFault::NoMemory),
    }
}

// ---- the bodies of the base

/// Adds the bodies that entries name.
fn push_named(bodies: &mut Vec<Body>, entries: &[Entry]) -> Result<(), NoMemory>
    ensures { OnOk result (bodies.new.items ≡ bodies.old.items ++ map (λ e. e.body) entries.now) }
{
    for entry in entries {
        bodies.push(entry.body)?;
    }
    Ok(())
}

/// The bodies that the entries of mailboxes name, in their order.
fn named(alloc: Global, rows: &[(BoxId, Mailbox)]) -> Result<Vec<Body>, NoMemory>
    ensures { IfOk result (λ bodies. bodies.items ≡ bodies_of rows.now) }
{
    let mut bodies = Vec::new(alloc);
    for row in rows {
        push_named(&mut bodies, row.1.entries.as_slice())?;
    }
    Ok(bodies)
}

/// The origin and the rev of a body, by which bodies stand in order.
fn key_of(body: Body) -> (u32, u32)
    ensures { result ≡ body_key body }
{
    (body.origin, body.rev)
}

/// The keys of bodies, each once, from the last body to the first.
fn keys_of(alloc: Global, bodies: &[Body]) -> Result<BTreeSet<(u32, u32)>, NoMemory>
    ensures { IfOk result (λ set. set.keys ≡ keys_once bodies.now) }
{
    let mut set = BTreeSet::new(alloc);
    let mut place = bodies.len();
    while place > 0 {
        place -= 1;
        set.insert(key_of(bodies[place]))?;
    }
    Ok(set)
}

/// The bodies of keys.
fn bodies_with(alloc: Global, keys: &BTreeSet<(u32, u32)>) -> Result<BodyList, NoMemory>
    ensures { IfOk result (λ bodies. bodies ≡ map key_body keys.now.keys) }
{
    let mut bodies = BodyList::new(alloc);
    for key in keys {
        bodies.push(Body {
            origin: key.0,
            rev: key.1,
        })?;
    }
    Ok(bodies)
}

/// The bodies that the entries of mailboxes name, each once, by rising origin and rev.
fn bodies_in(alloc: Global, rows: &[(BoxId, Mailbox)]) -> Result<BodyList, NoMemory>
    ensures { IfOk result (λ bodies. bodies ≡ bodies_once (bodies_of rows.now)) }
{
    let bodies = named(alloc, rows)?;
    let keys = keys_of(alloc, bodies.as_slice())?;
    bodies_with(alloc, &keys)
}

// ---- its parts

/// The payload of the Base of a store, beside what the desk keeps. One without a spelling finds no memory.
fn base_bytes(
    alloc: Global,
    desk: &mail_desk::Desk,
    store: &Store,
    rows: &[(BoxId, Mailbox)],
) -> Result<Text, NoMemory>
    ensures spelled { OnOk result (HasSpelling (BaseRecord desk.now.kept.next desk.now.kept.deep store.now.store.conf rows.now desk.now.kept.stamps desk.now.kept.reports)) }
    ensures bytes { IfOk result (λ bytes. bytes ≡ record_bytes (BaseRecord desk.now.kept.next desk.now.kept.deep store.now.store.conf rows.now desk.now.kept.stamps desk.now.kept.reports)) }
{
    match spell_base(
        alloc,
        desk.next(),
        desk.deep(),
        store.conf(),
        rows,
        desk.stamps().as_slice(),
        desk.reports(),
    ) {
        Ok(bytes) => Ok(bytes),
        Err(_) => Err(NoMemory),
    }
}

/// Finds no memory where the Kept of an item has no spelling.
fn check_item(alloc: Global, item: &Item) -> Result<(), NoMemory>
    ensures { OnOk result (HasSpelling (KeptRecord item.now)) }
{
    match spell_kept(alloc, item) {
        Ok(_bytes) => Ok(()),
        Err(_) => Err(NoMemory),
    }
}

/// The same of items.
fn check_spelled(alloc: Global, items: &[Item]) -> Result<(), NoMemory>
    ensures { OnOk result (AllByRecursion (λ (i : TheItem). HasSpelling (KeptRecord i)) items.now) }
{
    for item in items {
        check_item(alloc, item)?;
    }
    Ok(())
}

/// The items behind a place, without their texts, each of which has a spelling in its Kept.
fn kept_behind(alloc: Global, desk: &mail_desk::Desk, place: usize) -> Result<Items, NoMemory>
    requires { place ≤ length desk.now.kept.timeline }
    ensures items { IfOk result (λ items. items ≡ map bare_item (drop place desk.now.kept.timeline)) }
    ensures spelled { IfOk result (λ items. AllByRecursion (λ (i : TheItem). HasSpelling (KeptRecord i)) items) }
{
    let items = desk.bare_behind(alloc, place)?;
    match check_spelled(alloc, items.as_slice()) {
        Ok(()) => Ok(items),
        Err(NoMemory) => {
            drop(items);
            Err(NoMemory)
        }
    }
}

/// The parts of a cut at a place, where the items through it led to this store.
fn parts_of(
    alloc: Global,
    desk: &mail_desk::Desk,
    store: &Store,
    place: usize,
) -> Result<CutParts, NoMemory>
    requires place { place ≤ length desk.now.kept.timeline }
    requires texts { IsTrue (all_bodies (has_text_kept desk.now.kept) store.now.store.boxes) }
    ensures parts { store.now.store ≡ store_at desk.now.kept place → IfOk result (AreParts (cut desk.now.kept place)) }
    ensures bodies { IfOk result (λ parts. IsTrue (list_all (has_text_kept desk.now.kept) parts.bodies)) }
    ensures texts { IfOk result (λ parts. AllByRecursion (λ (i : TheItem). IsTrue (is_some (text_in i.deed)) → IsTrue (has_text_kept desk.now.kept (body_of i))) parts.kept) }
    ensures spelled { IfOk result (λ parts. AllByRecursion (λ (i : TheItem). HasSpelling (KeptRecord i)) parts.kept) }
{
    let rows = store.rows(alloc)?;
    let boxes = rows.as_slice();
    let bodies = bodies_in(alloc, boxes)?;
    let base = base_bytes(alloc, desk, store, boxes)?;
    let head = house_bytes(alloc, desk.house(), desk.opening())?;
    let kept = kept_behind(alloc, desk, place)?;
    Ok(CutParts {
        head,
        base,
        bodies,
        kept,
    })
}

/// The parts of a cut at a place, by what the items through it do.
fn parts_behind<D: Disk>(
    alloc: Global,
    past: &mut Past<D>,
    desk: &mail_desk::Desk,
    place: usize,
) -> Result<CutParts, BodiesFault>
    requires noted { TextsNoted past.old.end desk.now.notes desk.now.kept }
    requires marked { MarkedBefore past.old.end desk.now.marks }
    requires place { place ≤ length desk.now.kept.timeline }
    ensures parts { ToldOr (HoldsHeld (D.told past.old.disk) desk.now) (store_reads desk.now.kept place) → IfOk result (AreParts (cut desk.now.kept place)) }
    ensures bodies { IfOk result (λ parts. IsTrue (list_all (has_text_kept desk.now.kept) parts.bodies)) }
    ensures texts { IfOk result (λ parts. AllByRecursion (λ (i : TheItem). IsTrue (is_some (text_in i.deed)) → IsTrue (has_text_kept desk.now.kept (body_of i))) parts.kept) }
    ensures spelled { IfOk result (λ parts. AllByRecursion (λ (i : TheItem). HasSpelling (KeptRecord i)) parts.kept) }
    ensures due { IsErrOf result BodiesFault.Failed → IsTrue (store_reads desk.now.kept place) }
    ensures cause { BodiesCause (D.told past.old.disk) (D.told past.new.disk) result }
    ensures still { IsPastRead D.told past.old past.new }
{
    let store = store_through(alloc, past, desk, place)?;
    match parts_of(alloc, desk, &store, place) {
        Ok(parts) => Ok(parts),
        Err(NoMemory) => Err(BodiesFault::NoMemory),
    }
}

/// The parts of a cut behind all items: the store that they led to is at hand.
fn parts_now(alloc: Global, desk: &mail_desk::Desk, place: usize) -> Result<CutParts, BodiesFault>
    requires last { place ≡ length desk.now.kept.timeline }
    ensures parts { IsRun desk.now.kept → IfOk result (AreParts (cut desk.now.kept place)) }
    ensures bodies { IfOk result (λ parts. IsTrue (list_all (has_text_kept desk.now.kept) parts.bodies)) }
    ensures texts { IfOk result (λ parts. AllByRecursion (λ (i : TheItem). IsTrue (is_some (text_in i.deed)) → IsTrue (has_text_kept desk.now.kept (body_of i))) parts.kept) }
    ensures spelled { IfOk result (λ parts. AllByRecursion (λ (i : TheItem). HasSpelling (KeptRecord i)) parts.kept) }
    ensures memory { IfErr result (λ fault. fault ≡ BodiesFault.NoMemory) }
{
    desk.stands();
    match parts_of(alloc, desk, desk.store(), place) {
        Ok(parts) => Ok(parts),
        Err(NoMemory) => Err(BodiesFault::NoMemory),
    }
}

/// The parts of a cut at a place.
fn parts_at<D: Disk>(
    alloc: Global,
    past: &mut Past<D>,
    desk: &mail_desk::Desk,
    place: usize,
) -> Result<CutParts, BodiesFault>
    requires noted { TextsNoted past.old.end desk.now.notes desk.now.kept }
    requires marked { MarkedBefore past.old.end desk.now.marks }
    requires place { place ≤ length desk.now.kept.timeline }
    ensures parts { ToldOr (HoldsHeld (D.told past.old.disk) desk.now) (rests_on_disk desk.now.kept place) → IfOk result (AreParts (cut desk.now.kept place)) }
    ensures bodies { IfOk result (λ parts. IsTrue (list_all (has_text_kept desk.now.kept) parts.bodies)) }
    ensures texts { IfOk result (λ parts. AllByRecursion (λ (i : TheItem). IsTrue (is_some (text_in i.deed)) → IsTrue (has_text_kept desk.now.kept (body_of i))) parts.kept) }
    ensures spelled { IfOk result (λ parts. AllByRecursion (λ (i : TheItem). HasSpelling (KeptRecord i)) parts.kept) }
    ensures due { IsErrOf result BodiesFault.Failed → IsTrue (not (place == length desk.now.kept.timeline) && store_reads desk.now.kept place) }
    ensures cause { BodiesCause (D.told past.old.disk) (D.told past.new.disk) result }
    ensures still { IsPastRead D.told past.old past.new }
    // Behind all items nothing is read.
    ensures alone { place ≡ length desk.now.kept.timeline → past.new ≡ past.old }
{
    if place == desk.all_items().len() {
        parts_now(alloc, desk, place)
    } else {
        parts_behind(alloc, past, desk, place)
    }
}

/// The parts of a cut at a point of a desk.
fn cut_in<D: Disk>(
    alloc: Global,
    journal: &mut Journal<D>,
    desk: &mail_desk::Desk,
    point: u32,
) -> Result<CutParts, CycleFault>
    requires noted { TextsNoted journal.old.gate desk.now.notes desk.now.kept }
    requires marked { MarkedBefore journal.old.gate desk.now.marks }
    ensures parts { IfOk result (Cuts desk.now.kept point (HoldsHeld (D.told journal.old.disk) desk.now)) }
    ensures bodies { IfOk result (λ parts. IsTrue (list_all (has_text_kept desk.now.kept) parts.bodies)) }
    ensures texts { IfOk result (λ parts. AllByRecursion (λ (i : TheItem). IsTrue (is_some (text_in i.deed)) → IsTrue (has_text_kept desk.now.kept (body_of i))) parts.kept) }
    ensures spelled { IfOk result (λ parts. AllByRecursion (λ (i : TheItem). HasSpelling (KeptRecord i)) parts.kept) }
    ensures why { IfErr result (CutsNone desk.now.kept point (D.told journal.old.disk) (D.told journal.new.disk)) }
    ensures ok { OnOk result ((D.told journal.new.disk).failed_reads ≡ (D.told journal.old.disk).failed_reads) }
    ensures still { IsOnlyRead D.told journal.old journal.new }
    ensures alone { position desk.now.kept.timeline point ≡ Some (length desk.now.kept.timeline) → journal.new ≡ journal.old }
{
    let Some(place) = position_of(desk.all_items(), point) else {
        return Err(CycleFault::Point { given: point });
    };
    match parts_at(alloc, &mut journal.past, desk, place) {
        Ok(parts) => Ok(parts),
        Err(BodiesFault::Failed) => Err(CycleFault::Disk),
        Err(BodiesFault::NoMemory) => Err(CycleFault::NoMemory),
    }
}

impl<D: Disk> Desk<D> {
    /// What a cut at a point is made of: its past up to there becomes the base of a new journal, and the later items are kept. Each text
    /// that is asked for is held by this desk. At the last item its store is at hand. Else it begins with the newest snapshot at or
    /// before the point; where a filter may look at a text each delivery's text behind that is read, once. At `Disk` a read
    /// failed, and a later call may succeed. Nothing changes, and nothing is written. In time that grows as the search for the point,
    /// the mailboxes, the bodies times the logarithm of their number, the items, and these texts.
    pub fn cut_parts(&mut self, alloc: Global, point: u32) -> Result<CutParts, CycleFault>
        ensures parts { IfOk result (Cuts self.old.kept point (HoldsTexts D.told self.old)) }
        ensures bodies { IfOk result (λ parts. IsTrue (list_all (has_text_kept self.new.kept) parts.bodies)) }
        ensures texts { IfOk result (λ parts. AllByRecursion (λ (i : TheItem). IsTrue (is_some (text_in i.deed)) → IsTrue (has_text_kept self.new.kept (body_of i))) parts.kept) }
        ensures spelled { IfOk result (λ parts. AllByRecursion (λ (i : TheItem). HasSpelling (KeptRecord i)) parts.kept) }
        ensures why { IfErr result (CutsNone self.old.kept point (D.told self.old.disk) (D.told self.new.disk)) }
        ensures ok { OnOk result ((D.told self.new.disk).failed_reads ≡ (D.told self.old.disk).failed_reads) }
        ensures still { IsStill D.told self.old self.new }
        // At the last item nothing is read.
        ensures alone { position self.old.kept.timeline point ≡ Some (length self.old.kept.timeline) → self.new ≡ self.old }
    {
        cut_in(alloc, &mut self.journal, &self.desk, point)
    }
}
