//! Which page a path is of.
//!
//! A page is found by the front of its path (`/box/`), and what follows are its parts; no front begins another. The fronts are
//! not percent-decoded: `/st%61tus` is no route. An escaped slash is a byte of its part, a plain one ends it. A `?` is a byte
//! like others.
//!
//! Routes are found by a `matchit` router, and the definition of a route is by fronts, methods and parts. What a row matches more
//! than a route has is refused behind it. `/box/` takes the whole rest as one row, since a user's name may be any bytes that the
//! house has, also none.
//!
//! A row that the router refuses is answered as want of memory: of these thirteen no two conflict, which the cases show. The router
//! is made for each request.
ghost use Rattle.std.specs.Prelude.{◌≡◌, [], IfOk, IsUtf8, OnOk};
ghost use Rattle.console_http.specs.Pages.{AreBytes, acting_rows, page_at, page_rows, whole_rows};
ghost use Rattle.console_http.specs.Routes.{front_of, method_of};

use matchit::{InsertError, Router};
use std::alloc::Global;
use undo_base::NoMemory;

/// A page of the console.
#[derive(Clone, Copy)]
pub enum Page {
    Status,
    Timeline,
    Box,
    Body,
    Conf,
    Plan,
    Act,
    Cycle,
    Try,
    Snapshot,
    Stop,
    Upgrade,
    Withdraw,
}

impl Page {
    /// What stands before the parts of its path.
    pub fn front(self) -> &'static [u8]
        ensures { result.now ≡ front_of self }
    {
        match self {
            Page::Status => b"/status",
            Page::Timeline => b"/timeline/",
            Page::Box => b"/box/",
            Page::Body => b"/body/",
            Page::Conf => b"/conf",
            Page::Plan => b"/plan/",
            Page::Act => b"/act",
            Page::Cycle => b"/cycle",
            Page::Try => b"/try",
            Page::Snapshot => b"/snapshot",
            Page::Stop => b"/stop",
            Page::Upgrade => b"/upgrade",
            Page::Withdraw => b"/withdraw",
        }
    }

    /// The method by which the page is asked for.
    pub fn method(self) -> &'static [u8]
        ensures { result.now ≡ method_of self }
    {
        match self {
            Page::Status | Page::Timeline | Page::Box | Page::Body | Page::Conf | Page::Plan =>
                b"GET",
            Page::Act
            | Page::Cycle
            | Page::Try
            | Page::Snapshot
            | Page::Stop
            | Page::Upgrade
            | Page::Withdraw => b"POST",
        }
    }
}

fn add_acting(router: &mut Router<Page>) -> Result<(), InsertError>
    ensures { OnOk result (router.old ≡ [] → router.new ≡ acting_rows) }
{
    router.insert("/act", Page::Act)?;
    router.insert("/cycle", Page::Cycle)?;
    router.insert("/try", Page::Try)?;
    router.insert("/snapshot", Page::Snapshot)?;
    router.insert("/stop", Page::Stop)?;
    router.insert("/upgrade", Page::Upgrade)?;
    router.insert("/withdraw", Page::Withdraw)?;
    Ok(())
}

fn add_whole(router: &mut Router<Page>) -> Result<(), InsertError>
    ensures { OnOk result (router.old ≡ acting_rows → router.new ≡ whole_rows) }
{
    router.insert("/status", Page::Status)?;
    router.insert("/conf", Page::Conf)?;
    Ok(())
}

fn add_parted(router: &mut Router<Page>) -> Result<(), InsertError>
    ensures { OnOk result (router.old ≡ whole_rows → router.new ≡ page_rows) }
{
    router.insert("/timeline/{start}", Page::Timeline)?;
    router.insert("/box/{*mailbox}", Page::Box)?;
    router.insert("/body/{number}", Page::Body)?;
    router.insert("/plan/{point}", Page::Plan)?;
    Ok(())
}

fn add_pages(router: &mut Router<Page>) -> Result<(), InsertError>
    ensures { OnOk result (router.old ≡ [] → router.new ≡ page_rows) }
{
    add_acting(router)?;
    add_whole(router)?;
    add_parted(router)
}

/// The router of all pages. That two routes conflict does not come about: what is refused was want of memory.
fn page_router(alloc: Global) -> Result<Router<Page>, NoMemory>
    ensures { IfOk result (λ router. router ≡ page_rows) }
{
    let mut router = Router::new(alloc);
    match add_pages(&mut router) {
        Ok(()) => Ok(router),
        Err(_) => Err(NoMemory),
    }
}

fn page_in(router: &Router<Page>, path: &str) -> Option<Page>
    requires { router.now ≡ page_rows }
    ensures { result ≡ page_at path.now }
{
    match router.at(path) {
        Ok(found) => Some(*found.value),
        Err(_) => None,
    }
}

/// The page whose route a path matches. What is no UTF-8 has none.
pub fn find_page(alloc: Global, path: &[u8]) -> Result<Option<Page>, NoMemory>
    requires { IsUtf8 path.now }
    ensures page { IfOk result (λ page. page ≡ page_at path.now) }
    ensures bytes { AreBytes path.now }
{
    let router = page_router(alloc)?;
    match str::from_utf8(path) {
        Ok(path) => Ok(page_in(&router, path)),
        Err(_) => Ok(None),
    }
}
