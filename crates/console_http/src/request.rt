//! What the bytes of a connection ask of the console.
//!
//! `read_request` asks for a sound house, since users are found in it.
//!
//! Want of memory is answered only for a request.
//!
//! The body of `POST /upgrade` is empty, which is no octet at all, or a JSON object without a member, round which there may be
//! JSON's blanks. Blanks alone are no JSON.
ghost use Rattle.std.specs.Prelude.{◌≡◌, ◌≤◌, ◌++◌, List, ℕ, IsTrue, IsUtf8, IfOk, IfSome, Ok, option_map};
ghost use Rattle.verb_core.specs.Store.{is_house};
ghost use Rattle.console_head.specs.Coming.{IsKnown, looked_at};
ghost use Rattle.console_head.specs.Seen.{parts_seen};
ghost use Rattle.console_http.specs.Acts.{act_in};
ghost use Rattle.console_http.specs.Cycles.{cycle_in, try_in, withdraw_in};
ghost use Rattle.console_http.specs.Pages.{route_by};
ghost use Rattle.console_http.specs.Routes.{number_in, box_in, alone as alone_at, taken, said as said_of, asked_plainly, route_on, route_of};
ghost use Rattle.console_http.specs.Requests.{Asks, AsksOf, Found, Learns, told_of};

use crate::acts::read_act;
use crate::cycles::{read_cycle, read_try, read_withdraw};
use crate::members::{has_members, read_value};
use crate::pages::{Page, find_page};
use crate::parts::{before_slash, behind_slash, find_user, read_box, read_number, read_part};
use console_head::{Coming, HeadRefused, Request};
use std::alloc::Global;
use undo_base::{Name, NoMemory, User};
use verb_bytes::CycleAsk;
use verb_core::{Act, House};

/// What a request asks for. The key of a `Try` is a hyphen.
#[derive(Drop)]
pub enum Route {
    Status,
    Timeline { start: u32 },
    Box { user: User, name: Name },
    Body { number: u32 },
    Conf,
    Plan { point: u32 },
    Act(Act),
    Cycle(CycleAsk),
    Try(CycleAsk),
    Snapshot,
    Stop,
    Upgrade,
    Withdraw { key: Name, of: u32 },
}

/// What the bytes of a connection ask, if they are a request already.
#[derive(Drop)]
pub enum Asked {
    NotYet,
    Whole { route: Route },
}

/// Why a request is refused: its head, something too large, its route, its JSON; or no memory was found.
#[derive(Clone, Copy, PartialEq, Eq)]
pub enum HttpRefused {
    Head,
    Size,
    Route,
    Json,
    NoMemory,
}

impl From<NoMemory> for HttpRefused {
    ghost use Rattle.std.specs.Prelude.{◌≡◌};
    ghost use Rattle.console_http.specs.declared.request.HttpRefused.TheVariants.{NoMemory as no_memory};

    ghost from_gives = { λ _ e. e ≡ no_memory };

    fn from(_: NoMemory) -> Self {
        HttpRefused::NoMemory
    }
}

/// A path's one number.
fn read_number_part(alloc: Global, part: &[u8]) -> Result<Option<u32>, NoMemory>
    ensures { IfOk result (λ number. number ≡ number_in part.now) }
{
    match read_part(alloc, part)? {
        None => Ok(None),
        Some(text) => Ok(read_number(text.as_slice())),
    }
}

/// A path's user and name of a mailbox.
fn read_box_parts(alloc: Global, house: &House, parts: &[u8]) -> Result<Option<Route>, NoMemory>
    requires { IsTrue (is_house house.now) }
    ensures { IfOk result (λ route. route ≡ box_in house.now parts.now) }
{
    let Some(name) = read_part(alloc, before_slash(parts))? else {
        return Ok(None);
    };
    let Some(user) = find_user(house, name.as_slice()) else {
        return Ok(None);
    };
    let Some(text) = read_part(alloc, behind_slash(parts))? else {
        return Ok(None);
    };
    let Some(name) = read_box(alloc, text.as_slice())? else {
        return Ok(None);
    };
    Ok(Some(Route::Box { user, name }))
}

/// The route of a path that has no parts.
fn alone(route: Route, parts: &[u8]) -> Result<Route, HttpRefused>
    ensures { result ≡ alone_at (Ok route) parts.now }
{
    if parts.is_empty() {
        Ok(route)
    } else {
        drop(route);
        Err(HttpRefused::Route)
    }
}

fn read_timeline(alloc: Global, parts: &[u8]) -> Result<Route, HttpRefused>
    ensures { Found (taken (option_map (λ start. Route.Timeline start) (number_in parts.now))) result }
{
    match read_number_part(alloc, parts)? {
        None => Err(HttpRefused::Route),
        Some(start) => Ok(Route::Timeline { start }),
    }
}

fn read_body(alloc: Global, parts: &[u8]) -> Result<Route, HttpRefused>
    ensures { Found (taken (option_map (λ number. Route.Body number) (number_in parts.now))) result }
{
    match read_number_part(alloc, parts)? {
        None => Err(HttpRefused::Route),
        Some(number) => Ok(Route::Body { number }),
    }
}

fn read_plan(alloc: Global, parts: &[u8]) -> Result<Route, HttpRefused>
    ensures { Found (taken (option_map (λ point. Route.Plan point) (number_in parts.now))) result }
{
    match read_number_part(alloc, parts)? {
        None => Err(HttpRefused::Route),
        Some(point) => Ok(Route::Plan { point }),
    }
}

fn read_mailbox(alloc: Global, house: &House, parts: &[u8]) -> Result<Route, HttpRefused>
    requires { IsTrue (is_house house.now) }
    ensures { Found (taken (box_in house.now parts.now)) result }
{
    match read_box_parts(alloc, house, parts)? {
        None => Err(HttpRefused::Route),
        Some(route) => Ok(route),
    }
}

/// What a body asks for, where it is that.
fn said(route: Option<Route>) -> Result<Route, HttpRefused>
    ensures { result ≡ said_of route }
{
    match route {
        None => Err(HttpRefused::Json),
        Some(route) => Ok(route),
    }
}

fn read_acted(alloc: Global, house: &House, parts: &[u8], body: &[u8]) -> Result<Route, HttpRefused>
    requires { IsTrue (is_house house.now) }
    ensures { Found (alone_at (said_of (option_map (λ act. Route.Act act) (act_in house.now body.now))) parts.now) result }
{
    if !parts.is_empty() {
        return Err(HttpRefused::Route);
    }
    said(read_act(alloc, house, body)?.map(|act| Route::Act(act)))
}

fn read_cycled(
    alloc: Global,
    house: &House,
    parts: &[u8],
    body: &[u8],
) -> Result<Route, HttpRefused>
    requires { IsTrue (is_house house.now) }
    ensures { Found (alone_at (said_of (option_map (λ ask. Route.Cycle ask) (cycle_in house.now body.now))) parts.now) result }
{
    if !parts.is_empty() {
        return Err(HttpRefused::Route);
    }
    said(read_cycle(alloc, house, body)?.map(|ask| Route::Cycle(ask)))
}

fn read_tried(alloc: Global, house: &House, parts: &[u8], body: &[u8]) -> Result<Route, HttpRefused>
    requires { IsTrue (is_house house.now) }
    ensures { Found (alone_at (said_of (option_map (λ ask. Route.Try ask) (try_in house.now body.now))) parts.now) result }
{
    if !parts.is_empty() {
        return Err(HttpRefused::Route);
    }
    said(read_try(alloc, house, body)?.map(|ask| Route::Try(ask)))
}

/// The upgrade, where a body has no member.
fn plainly(alloc: Global, body: &[u8]) -> Result<Option<Route>, NoMemory>
    ensures { IfOk result (λ asked. asked ≡ asked_plainly Route.Upgrade body.now) }
{
    if body.is_empty() {
        return Ok(Some(Route::Upgrade));
    }
    match read_value(alloc, body)? {
        None => Ok(None),
        Some(value) => {
            if has_members(&value, 0) {
                Ok(Some(Route::Upgrade))
            } else {
                Ok(None)
            }
        }
    }
}

fn read_upgrade(alloc: Global, parts: &[u8], body: &[u8]) -> Result<Route, HttpRefused>
    ensures { Found (alone_at (said_of (asked_plainly Route.Upgrade body.now)) parts.now) result }
{
    if !parts.is_empty() {
        return Err(HttpRefused::Route);
    }
    said(plainly(alloc, body)?)
}

fn read_withdrawn(alloc: Global, parts: &[u8], body: &[u8]) -> Result<Route, HttpRefused>
    ensures { Found (alone_at (said_of (option_map (λ (asked : List ℕ × ℕ). Route.Withdraw asked.0 asked.1) (withdraw_in body.now))) parts.now) result }
{
    if !parts.is_empty() {
        return Err(HttpRefused::Route);
    }
    said(read_withdraw(alloc, body)?.map(|(key, of)| Route::Withdraw { key, of }))
}

/// The route of a page, by the parts of its path and the body.
fn read_parts(
    alloc: Global,
    house: &House,
    page: Page,
    parts: &[u8],
    body: &[u8],
) -> Result<Route, HttpRefused>
    requires { IsTrue (is_house house.now) }
    ensures { Found (route_on house.now page parts.now body.now) result }
{
    match page {
        Page::Status => alone(Route::Status, parts),
        Page::Timeline => read_timeline(alloc, parts),
        Page::Box => read_mailbox(alloc, house, parts),
        Page::Body => read_body(alloc, parts),
        Page::Conf => alone(Route::Conf, parts),
        Page::Plan => read_plan(alloc, parts),
        Page::Act => read_acted(alloc, house, parts, body),
        Page::Cycle => read_cycled(alloc, house, parts, body),
        Page::Try => read_tried(alloc, house, parts, body),
        Page::Snapshot => alone(Route::Snapshot, parts),
        Page::Stop => alone(Route::Stop, parts),
        Page::Upgrade => read_upgrade(alloc, parts, body),
        Page::Withdraw => read_withdrawn(alloc, parts, body),
    }
}

/// The route that a request takes as this page's.
fn read_page(
    alloc: Global,
    house: &House,
    page: Page,
    request: Request<'_>,
) -> Result<Route, HttpRefused>
    requires { IsTrue (is_house house.now) }
    ensures { Found (route_by house.now (parts_seen request.entry) page) result }
{
    if request.method != page.method() {
        return Err(HttpRefused::Route);
    }
    match request.target.strip_prefix(page.front()) {
        None => Err(HttpRefused::Route),
        Some(parts) => read_parts(alloc, house, page, parts, request.body),
    }
}

/// The route that a request takes: that of the page whose row its path matches.
fn read_route(alloc: Global, house: &House, request: Request<'_>) -> Result<Route, HttpRefused>
    requires house { IsTrue (is_house house.now) }
    requires text { IsUtf8 request.target.now }
    ensures { Found (route_of house.now (parts_seen request.entry)) result }
{
    match find_page(alloc, request.target)? {
        None => Err(HttpRefused::Route),
        Some(page) => read_page(alloc, house, page, request),
    }
}

/// What is asked by a request, or by none yet.
fn read_asked(
    alloc: Global,
    house: &House,
    request: Option<Request<'_>>,
) -> Result<Asked, HttpRefused>
    requires house { IsTrue (is_house house.now) }
    requires text { IfSome request (λ r. IsUtf8 r.target.now) }
    ensures { AsksOf house.now (option_map parts_seen request.entry) result }
{
    match request {
        None => Ok(Asked::NotYet),
        Some(request) => match read_route(alloc, house, request) {
            Ok(route) => Ok(Asked::Whole { route }),
            Err(refused) => Err(refused),
        },
    }
}

fn head_refused(refused: HeadRefused) -> HttpRefused
    ensures { result ≡ told_of refused }
{
    match refused {
        HeadRefused::Head => HttpRefused::Head,
        HeadRefused::Size => HttpRefused::Size,
    }
}

/// What is asked by the bytes of a connection, of which some may have been read before.
pub fn read_coming(
    alloc: Global,
    coming: &mut Coming,
    house: &House,
    bytes: &[u8],
) -> Result<Asked, HttpRefused>
    requires house { IsTrue (is_house house.now) }
    requires known { IsKnown coming.old bytes.now }
    ensures asks { Asks house.now bytes.now result }
    ensures known { (more : List ℕ) → IsKnown coming.new (bytes.now ++ more) }
    ensures further { looked_at coming.old.lines ≤ looked_at coming.new.lines }
    ensures more { coming.old.least ≤ coming.new.least }
    ensures learns { Learns coming.new bytes.now result }
{
    match coming.read(bytes) {
        Ok(request) => read_asked(alloc, house, request),
        Err(refused) => Err(head_refused(refused)),
    }
}

/// What is asked by the bytes of a connection: the one definition that `read_coming` keeps too.
pub fn read_request(alloc: Global, house: &House, bytes: &[u8]) -> Result<Asked, HttpRefused>
    requires { IsTrue (is_house house.now) }
    ensures { Asks house.now bytes.now result }
{
    read_coming(alloc, &mut Coming::new(), house, bytes)
}
