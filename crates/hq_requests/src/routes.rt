//! The routes of the desk: which methods a path has, whose key each takes, and what it asks for.

ghost use Rattle.std.specs.Prelude.{◌≡◌, ⊤, [], true, IfOk, IfErr, OnOk, MatchOption};
ghost use Rattle.std.specs.Prelude.{map as map_list};
ghost use Rattle.matchit.specs.Seek.{first};
ghost use Rattle.matchit.specs.Router.{rename, map_key};
ghost use Rattle.hq_requests.specs.Adding.{path_added, added_all, can_add, can_add_all};
ghost use Rattle.hq_requests.specs.Routes.{last_segment, methods_at, routes};

use crate::table::{Methods, TABLE};
use hq_memory::Memory;
use matchit::{InsertError, Router};
use std::alloc::Global;

/// Memory that also enters paths in a router. The library is trusted to give up for want of memory
/// alone, where its error says so.
pub trait RouteMemory: Memory {
    /// A router with no paths, without taking memory.
    fn no_paths(self) -> Router<Methods>
        ensures empty { result ≡ [] };

    /// Adds a path. Where it reads well and has no conflict with those that are there, the only
    /// error is want of memory, and the memory refused.
    fn add(
        self,
        router: &mut Router<Methods>,
        path: &str,
        methods: Methods,
    ) -> Result<(), InsertError>
        ensures added { OnOk result (router.new ≡ path_added (path.now, methods) router.old) }
        ensures fault { can_add (path.now, methods) router.old ≡ true → IfErr result
            (λ e. (e ≡ InsertError.OutOfMemory) × Self.refused) };
}

impl RouteMemory for Global {
    fn no_paths(self) -> Router<Methods> {
        Router::new(self)
    }

    fn add(
        self,
        router: &mut Router<Methods>,
        path: &str,
        methods: Methods,
    ) -> Result<(), InsertError> {
        router.insert(path, methods)
    }
}

/// Adds paths in their order.
fn add_all<M: RouteMemory>(
    memory: M,
    router: &mut Router<Methods>,
    paths: &[(&str, Methods)],
) -> Result<(), InsertError>
    ensures added { OnOk result
        (router.new ≡ added_all (map_list (λ e. (e.0.now, e.1)) paths.now) router.old) }
    ensures fault { can_add_all (map_list (λ e. (e.0.now, e.1)) paths.now) router.old ≡ true
        → IfErr result (λ e. (e ≡ InsertError.OutOfMemory) × M.refused) }
{
    match paths {
        [] => Ok(()),
        [(path, methods), rest @ ..] => {
            memory.add(router, path, *methods)?;
            add_all(memory, router, rest)
        }
    }
}

fn methods_in(router: &Router<Methods>, path: &str) -> Option<Methods>
    ensures { result ≡ map_key (λ e. e.value) (first router.now path.now) }
{
    match router.at(path) {
        Ok(found) => Some(*found.value),
        Err(_) => None,
    }
}

/// The routes of the desk, entered in a router.
#[derive(Drop)]
pub struct Routes {
    router: Router<Methods>,
    ghost whole: { rename (λ e. e.value) router ≡ routes },
}

impl Routes {
    /// Enters all paths. The only error is that the memory refused, since no two of them are in
    /// conflict.
    pub fn new<M: RouteMemory>(memory: M) -> Result<Routes, InsertError>
        ensures { IfErr result (λ e. (e ≡ InsertError.OutOfMemory) × M.refused) }
    {
        let mut router = memory.no_paths();
        add_all(memory, &mut router, &TABLE)?;
        Ok(Routes { router })
    }

    /// The methods of a path, if it is one of the desk's. It takes no memory.
    pub fn at(&self, path: &str) -> Option<Methods>
        ensures { result ≡ methods_at path.now }
    {
        methods_in(&self.router, path)
    }
}

/// A path at its last slash.
fn cut(path: &str) -> Option<(&str, &str)>
    ensures { MatchOption result (last_segment path.now ≡ path.now)
        (λ cut. last_segment path.now ≡ cut.1.now) }
{
    path.rsplit_once('/')
}

/// What follows the last slash of a path, or all of it.
pub fn last_segment(path: &str) -> &str
    ensures { result.now ≡ last_segment path.now }
{
    match cut(path) {
        Some((_, segment)) => segment,
        None => path,
    }
}
