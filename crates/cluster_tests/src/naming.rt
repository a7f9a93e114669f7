//! New clusters over two shards, each under names of its own.
//!
//! A cluster's names are ghosts of two types, and are picked where `Brand` is passed for them: first the table by which
//! keys lie, and then, once they are there, what its ledger and its two histories are seen as. So what follows a script is
//! generic in both types; it is called here alone.

ghost use Rattle.std.specs.Prelude.{◌≡◌, ◌<◌, ◌≤◌};
ghost use Rattle.journal.specs.declared.trace.TheConstants.{GREATEST_STEPS};

use crate::crowd::{Crowd, Host, ask_together};
use crate::scene::{Left, Scene};
use crate::visit::{Connection, Visit};
use crate::words::{Step, done, steps_of};
use cluster::{Cluster, Server};
use hashed_texts::TextHasher;
use placement::Table;
use serial_store::{SerialStore, Tabled};
use shared_cluster::{Blanks, Names, Shared};
use std::alloc::Global;
use std::marker::Brand;
use std::process::Abort;
use test_support::TWO_SHARDS;

/// At most how many steps most clusters here make.
pub(crate) const MOST: u64 = 1000;

/// Follows a script with a new cluster beside its store, which makes so many steps at most, and keeps a trace of them where
/// `keeps` says so. Gives what is left.
pub(crate) fn with_cluster<R: Abort>(
    rt: &R,
    alloc: Global,
    most: u64,
    keeps: bool,
    script: &str,
) -> Left
    requires { (1 ≤ most) × (most ≤ GREATEST_STEPS) }
{
    let script = steps_of(rt, alloc, script);
    let table = done(rt, "the table", Table::from_toml(alloc, TWO_SHARDS));
    open_cluster::<Brand, R>(rt, alloc, table, most, keeps, script.as_slice())
}

/// The same, where keys lie as the table says.
fn open_cluster<T: Tabled, R: Abort>(
    rt: &R,
    alloc: Global,
    table: Table,
    most: u64,
    keeps: bool,
    script: &[Step],
) -> Left
    requires table { table ≡ T.table }
    requires most { (1 ≤ most) × (most ≤ GREATEST_STEPS) }
{
    let blanks: Blanks<T> = Blanks::open(most);
    name_cluster::<T, Brand, R>(rt, alloc, table, most, keeps, blanks, script)
}

/// The same, under the names of these blanks.
fn name_cluster<T: Tabled, L: Server, R: Abort>(
    rt: &R,
    alloc: Global,
    table: Table,
    most: u64,
    keeps: bool,
    blanks: Blanks<T>,
    script: &[Step],
) -> Left
    requires table { table ≡ T.table }
    requires most { (1 ≤ most) × (most ≤ GREATEST_STEPS) }
    requires enough { most < blanks.blank.parts }
    requires name { blanks.blank.name ≡ L.name }
    requires parts { blanks.blank.parts ≡ L.parts }
    requires steps { blanks.steps ≡ L.steps }
    requires runs { blanks.runs ≡ L.runs }
{
    let Names {
        blank,
        steps: told,
        runs,
    } = blanks.named::<L>();
    let ran = runs.part();
    let store = SerialStore::new(alloc, table, TextHasher::Fixed, runs);
    let store = done(rt, "a store", store);
    let cluster: Result<Cluster<T, L>, _> = Cluster::new(
        alloc, table, most, keeps, blank, told, ran,
    );
    let cluster = done(rt, "a cluster", cluster);
    Scene::new(alloc, cluster, store).follow(rt, script)
}

/// What is done with a shared cluster: by several threads, if there are any, and then by one, as its script says.
#[derive(Clone, Copy)]
pub(crate) struct Course<'a> {
    pub crowd: Option<Crowd<'a>>,
    pub connection: Connection<'a>,
}

impl Course<'_> {
    /// Just what a script says.
    pub(crate) const SCRIPT: Course<'static> = Course {
        crowd: None,
        connection: Connection::SILENT,
    };
}

/// Follows a script with a new shared cluster, behind what else is done with it. The cluster makes so many steps at most,
/// and keeps a trace of them where `keeps` says so. Gives the text that is left.
pub(crate) fn with_shared<R: Host>(
    rt: &R,
    alloc: Global,
    most: u64,
    keeps: bool,
    course: &Course<'_>,
    script: &str,
) -> Vec<u8>
    requires { (1 ≤ most) × (most ≤ GREATEST_STEPS) }
{
    let script = steps_of(rt, alloc, script);
    let table = done(rt, "the table", Table::from_toml(alloc, TWO_SHARDS));
    open_shared::<Brand, R>(rt, alloc, table, most, keeps, course, script.as_slice())
}

/// The same, where keys lie as the table says.
fn open_shared<T: Tabled + Send + Sync, R: Host>(
    rt: &R,
    alloc: Global,
    table: Table,
    most: u64,
    keeps: bool,
    course: &Course<'_>,
    script: &[Step],
) -> Vec<u8>
    requires table { table ≡ T.table }
    requires most { (1 ≤ most) × (most ≤ GREATEST_STEPS) }
{
    let blanks: Blanks<T> = Blanks::open(most);
    name_shared::<T, Brand, R>(rt, alloc, table, most, keeps, blanks, course, script)
}

/// The same, under the names of these blanks.
fn name_shared<T: Tabled + Send + Sync, L: Server + Send + Sync, R: Host>(
    rt: &R,
    alloc: Global,
    table: Table,
    most: u64,
    keeps: bool,
    blanks: Blanks<T>,
    course: &Course<'_>,
    script: &[Step],
) -> Vec<u8>
    requires table { table ≡ T.table }
    requires most { (1 ≤ most) × (most ≤ GREATEST_STEPS) }
    requires enough { most < blanks.blank.parts }
    requires name { blanks.blank.name ≡ L.name }
    requires parts { blanks.blank.parts ≡ L.parts }
    requires steps { blanks.steps ≡ L.steps }
    requires runs { blanks.runs ≡ L.runs }
{
    let names = blanks.named::<L>();
    let shared: Result<Shared<T, L>, _> = Shared::new(
        alloc,
        table,
        most,
        keeps,
        TextHasher::Fixed,
        names,
    );
    let shared = done(rt, "a cluster", shared);
    if let Some(crowd) = &course.crowd {
        ask_together(rt, alloc, &shared, crowd);
    }
    Visit::new(rt, alloc, &shared).follow(script, &course.connection)
}
