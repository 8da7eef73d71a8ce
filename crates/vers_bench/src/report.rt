//! The output: a line for each series, with its checksum, and with its time if requested.
use crate::workload::{Below, Draw, Questions, fold};
use std::alloc::{AllocError, Global};
use std::io;
use std::time::{CpuClock, Duration};

/// The settings in the arguments.
#[derive(Drop)]
pub struct Settings {
    /// The name of the driver in the lines. If it is empty, each series is run once on a small workload for its
    /// checksum only, so that each run prints the same.
    pub name: String,
    /// The structures to run; all if there are none.
    pub structures: Vec<String>,
    /// How often each series is run, for the median of the times.
    pub repetitions: usize,
    /// The divisor of the sizes.
    pub divisor: usize,
    /// The one size of structures, instead of the usual ones: of bits, elements, symbols, items or nodes. Then
    /// each has only the first kind of data, and of the series that go over all of it only builds.
    pub size: Option<usize>,
}

impl Settings {
    /// Returns true if times are requested.
    pub fn are_timed(&self) -> bool {
        !self.name.is_empty()
    }

    /// Returns a size, divided by the divisor of all sizes.
    pub fn scaled(&self, size: usize) -> usize {
        size / if self.are_timed() {
            self.divisor.max(1)
        } else {
            16
        }
    }

    /// Returns the size of a structure: the one that is requested, or the usual one, divided as all are.
    pub fn size_or(&self, usual: usize) -> usize {
        match self.size {
            Some(size) => size,
            None => self.scaled(usual),
        }
    }

    /// Returns true if larger structures are requested too.
    pub fn has_large(&self) -> bool {
        self.are_timed() && self.size.is_none()
    }

    /// Returns how often a series is run.
    pub fn repetitions(&self) -> usize {
        if self.are_timed() {
            self.repetitions
        } else {
            1
        }
    }

    /// Returns true if a structure is requested.
    pub fn wants(&self, structure: &str) -> bool {
        self.structures.is_empty() || self.structures.iter().any(|it| it.as_str() == structure)
    }
}

/// The time of a run of a series, in nanoseconds, and the checksum of its answers.
#[derive(Clone, Copy, Drop)]
pub struct Timed {
    nanoseconds: u64,
    checksum: u64,
}

impl Timed {
    /// Returns the same run with another checksum, which is known after its time.
    pub fn with_checksum(self, checksum: u64) -> Timed {
        Timed { checksum, ..self }
    }
}

/// The structure and the data that are measured. Each of the series prints a line.
#[derive(Clone, Copy)]
pub struct Report<'a> {
    /// The program's runtime.
    pub rt: &'a HostRuntime,
    /// The settings in the arguments.
    pub settings: &'a Settings,
    /// The structure's name.
    pub structure: &'a str,
    /// The data: how much, and what kind.
    pub parameters: &'a str,
}

impl<'a> Report<'a> {
    /// Returns the report of another structure.
    pub fn of(&self, structure: &'a str) -> Report<'a> {
        Report { structure, ..*self }
    }

    /// Returns the report of the same structure over some data.
    pub fn over<'b>(&self, parameters: &'b str) -> Report<'b>
    where
        'a: 'b,
    {
        Report {
            parameters,
            ..*self
        }
    }

    /// Returns the allocator.
    pub fn alloc(&self) -> Global {
        self.rt.alloc()
    }

    /// Returns the number of queries of a series, unless it says otherwise.
    pub fn query_count(&self) -> usize {
        self.settings.scaled(1_000_000)
    }

    /// Returns the questions of such a series, drawn after `lists_before` lists of as many numbers.
    pub fn questions<D: Draw>(&self, seed: u64, lists_before: usize, from: D) -> Questions<D> {
        Questions::new(self.query_count(), seed, lists_before, from)
    }

    // Prints the line of an operation: nanoseconds in thousandths, and the checksum.
    fn print(&self, operation: &str, thousandths: u64, checksum: u64) -> io::Result<()> {
        let Report {
            rt,
            settings,
            structure,
            parameters,
        } = *self;
        if !settings.are_timed() {
            return println!(rt; "{structure}\t{operation}\t{parameters}\t{checksum:016x}");
        }
        let name = settings.name.as_str();
        let whole = thousandths / 1000;
        let part = thousandths % 1000;
        println!(rt;
            "{name}\t{structure}\t{operation}\t{parameters}\t{whole}.{part:03}\t{checksum:016x}"
        )
    }

    /// Prints a size in thousandths, if times are requested: it is no series, and has no checksum.
    pub fn size(&self, name: &str, thousandths: u64) -> io::Result<()> {
        if self.settings.are_timed() {
            self.print(name, thousandths, 0)
        } else {
            Ok(())
        }
    }

    // Prints the line of a series with these times, in nanoseconds, for `count` operations each.
    fn times(&self, operation: &str, times: Vec<u64>, count: u64, checksum: u64) -> io::Result<()> {
        self.print(operation, per_operation(times, count), checksum)
    }

    /// Runs a series of builds of `count` items and prints its line. `build` makes a structure of `source`.
    pub fn builds<S: Copy + Drop, T: Drop, F: FnOnce(Global, S) -> Result<T, AllocError> + Copy>(
        &self,
        operation: &str,
        count: u64,
        checksum: u64,
        source: S,
        build: F,
    ) -> io::Result<()>
        requires { (alloc : _) → F.pre build alloc source }
    {
        let mut times = Vec::new(self.rt.alloc());
        for _ in 0..self.settings.repetitions() {
            times.push(build_time(self.rt, source, build)?)?;
        }
        self.times(operation, times, count, checksum)
    }

    /// Does the same for builds that take their source: it is copied before the time is taken.
    pub fn builds_of_copies<
        S: Copy + Drop,
        C: Drop,
        T: Drop,
        G: FnOnce(Global, S) -> Result<C, AllocError> + Copy,
        F: FnOnce(C) -> Result<T, AllocError> + Copy,
    >(&self, count: u64, checksum: u64, source: S, copy: G, build: F) -> io::Result<()>
        requires copy { G.IsAlwaysCallable copy }
        requires build { F.IsAlwaysCallable build }
    {
        let mut times = Vec::new(self.rt.alloc());
        for _ in 0..self.settings.repetitions() {
            times.push(build_time_of_copy(self.rt, source, copy, build)?)?;
        }
        self.times("build", times, count, checksum)
    }

    /// Runs a series of `count` operations on a structure and prints its line. `pass` does them all and
    /// returns the checksum.
    pub fn passes<T, Q, F: FnOnce(&T, &[Q]) -> u64 + Copy>(
        &self,
        operation: &str,
        count: u64,
        structure: &T,
        queries: &[Q],
        pass: F,
    ) -> io::Result<()>
        requires { F.pre pass structure queries }
    {
        self.repeated(operation, count, || {
            measured(self.rt, structure, queries, pass)
        })
    }

    /// Runs a series of `count` operations and prints its line. `run` does them all once.
    pub fn repeated<F: Fn() -> io::Result<Timed>>(
        &self,
        operation: &str,
        count: u64,
        run: F,
    ) -> io::Result<()>
        requires { F.IsAlwaysCallable run }
    {
        let mut times = Vec::new(self.rt.alloc());
        let mut checksum = 0u64;
        for _ in 0..self.settings.repetitions() {
            let timed = run()?;
            times.push(timed.nanoseconds)?;
            checksum = timed.checksum;
        }
        self.times(operation, times, count, checksum)
    }

    /// Runs a series that walks over `count` items and prints its line.
    pub fn walk<T, F: FnOnce(&T) -> u64 + Copy>(
        &self,
        operation: &str,
        count: u64,
        structure: &T,
        pass: F,
    ) -> io::Result<()>
        requires { F.IsAlwaysCallable pass }
    {
        if self.settings.size.is_some() {
            return Ok(());
        }
        let pass = |it: &T, _: &[()]| pass(it);
        self.passes(operation, count, structure, &[], pass)
    }

    /// Runs a series of queries of a list and prints its line. `answer` answers one.
    pub fn listed_queries<T, Q, F: FnOnce(&T, &Q) -> u64 + Copy>(
        &self,
        operation: &str,
        structure: &T,
        queries: &[Q],
        answer: F,
    ) -> io::Result<()>
        requires { F.IsAlwaysCallable answer }
    {
        let count = queries.len() as u64;
        let pass = |it: &T, all: &[Q]| queries_pass(it, all, answer);
        self.passes(operation, count, structure, queries, pass)
    }

    /// Does the same for queries that are drawn.
    pub fn queries<T, D: Draw, F: FnOnce(&T, &D::Item) -> u64 + Copy>(
        &self,
        operation: &str,
        structure: &T,
        queries: &Questions<D>,
        answer: F,
    ) -> io::Result<()>
        requires { F.IsAlwaysCallable answer }
    {
        let queries = queries.made(self.alloc())?;
        self.listed_queries(operation, structure, queries.as_slice(), answer)
    }

    /// Does the same for queries that each depend on the answer of the one before.
    pub fn chained_queries<T, F: FnOnce(&T, &u64) -> u64 + Copy>(
        &self,
        operation: &str,
        structure: &T,
        queries: &Questions<Below>,
        answer: F,
    ) -> io::Result<()>
        requires { F.IsAlwaysCallable answer }
    {
        let queries = queries.made(self.alloc())?;
        let count = queries.len() as u64;
        let pass = |it: &T, all: &[u64]| chained_pass(it, all, answer);
        self.passes(operation, count, structure, queries.as_slice(), pass)
    }

    /// Does the same for queries that each take an item of another list.
    pub fn paired_queries<T, D: Draw, E: Draw, F: FnOnce(&T, &D::Item, &E::Item) -> u64 + Copy>(
        &self,
        operation: &str,
        structure: &T,
        queries: &Questions<D>,
        others: &Questions<E>,
        answer: F,
    ) -> io::Result<()>
        requires { F.IsAlwaysCallable answer }
    {
        let others = others.made(self.alloc())?;
        self.queries_with(operation, structure, queries, others.as_slice(), answer)
    }

    fn queries_with<T, D: Draw, U, F: FnOnce(&T, &D::Item, &U) -> u64 + Copy>(
        &self,
        operation: &str,
        structure: &T,
        queries: &Questions<D>,
        others: &[U],
        answer: F,
    ) -> io::Result<()>
        requires { F.IsAlwaysCallable answer }
    {
        let queries = queries.made(self.alloc())?;
        let count = queries.len() as u64;
        let pass = |it: &T, all: &[D::Item]| paired_pass(it, all, others, answer);
        self.passes(operation, count, structure, queries.as_slice(), pass)
    }
}

// Each pass is a function of its own in the machine code, for each kind of queries, so that a profiler
// counts its instructions.
#[inline(never)]
fn queries_pass<T, Q, F: FnOnce(&T, &Q) -> u64 + Copy>(
    structure: &T,
    queries: &[Q],
    answer: F,
) -> u64
    requires { F.IsAlwaysCallable answer }
{
    let mut sum = 0;
    for query in queries {
        sum = fold(sum, answer(structure, query));
    }
    sum
}

#[inline(never)]
fn chained_pass<T, F: FnOnce(&T, &u64) -> u64 + Copy>(
    structure: &T,
    queries: &[u64],
    answer: F,
) -> u64
    requires { F.IsAlwaysCallable answer }
{
    let mut sum = 0;
    let mut last = 0u64;
    for query in queries {
        last = answer(structure, &query.wrapping_add(last >> 63));
        sum = fold(sum, last);
    }
    sum
}

#[inline(never)]
fn paired_pass<T, Q, U, F: FnOnce(&T, &Q, &U) -> u64 + Copy>(
    structure: &T,
    queries: &[Q],
    others: &[U],
    answer: F,
) -> u64
    requires { F.IsAlwaysCallable answer }
{
    let mut sum = 0;
    for (query, other) in queries.iter().zip(others) {
        sum = fold(sum, answer(structure, query, other));
    }
    sum
}

// Returns the processor time since, in nanoseconds.
fn nanoseconds_since(rt: &HostRuntime, start: Duration) -> io::Result<u64> {
    let elapsed = rt.thread_cpu_time()?.saturating_sub(start);
    Ok(u64::try_from(elapsed.as_nanos()).unwrap_or(u64::MAX))
}

// Returns the time of a pass, and its checksum.
fn measured<T, Q, F: FnOnce(&T, &[Q]) -> u64>(
    rt: &HostRuntime,
    structure: &T,
    queries: &[Q],
    pass: F,
) -> io::Result<Timed>
    requires { F.pre pass structure queries }
{
    let start = rt.thread_cpu_time()?;
    let checksum = pass(structure, queries);
    timed_since(rt, start, checksum)
}

/// Returns the time of a run that began at `start`, with its checksum.
pub fn timed_since(rt: &HostRuntime, start: Duration, checksum: u64) -> io::Result<Timed> {
    let nanoseconds = nanoseconds_since(rt, start)?;
    Ok(Timed {
        nanoseconds,
        checksum,
    })
}

// Returns the time of a build.
fn build_time<S: Drop, T: Drop, F: FnOnce(Global, S) -> Result<T, AllocError>>(
    rt: &HostRuntime,
    source: S,
    build: F,
) -> io::Result<u64>
    requires { (alloc : _) → F.pre build alloc source }
{
    let start = rt.thread_cpu_time()?;
    built_since(rt, start, build(rt.alloc(), source))
}

// Returns the time of a build of a copy, which isn't timed.
fn build_time_of_copy<
    S: Drop,
    C: Drop,
    T: Drop,
    G: FnOnce(Global, S) -> Result<C, AllocError>,
    F: FnOnce(C) -> Result<T, AllocError>,
>(rt: &HostRuntime, source: S, copy: G, build: F) -> io::Result<u64>
    requires copy { G.IsAlwaysCallable copy }
    requires build { F.IsAlwaysCallable build }
{
    let copied = copy(rt.alloc(), source)?;
    let start = rt.thread_cpu_time()?;
    built_since(rt, start, build(copied))
}

// Returns the time of a build that began at `start`, in nanoseconds. Its result is dropped after that time is
// taken.
fn built_since<T: Drop>(
    rt: &HostRuntime,
    start: Duration,
    made: Result<T, AllocError>,
) -> io::Result<u64> {
    match made {
        Ok(value) => {
            let taken = nanoseconds_since(rt, start);
            let_go(value);
            taken
        }
        Err(error) => Err(io::Error::from(error)),
    }
}

fn let_go<T: Drop>(_value: T) {}

// Returns the median of the times of `count` operations, in thousandths of a nanosecond an operation.
fn per_operation(mut times: Vec<u64>, count: u64) -> u64 {
    times.sort_unstable();
    let median = times.get(times.len() / 2).copied().unwrap_or(0);
    median.saturating_mul(1000) / count.max(1)
}

/// Runs `ask` on a structure that was made of `source`. The structure is of a generic type, so that a caller's
/// proof doesn't go through its fields.
pub fn asked<S: Copy, T: Drop, F: FnOnce(&Report, S, &T) -> io::Result<()>>(
    report: &Report,
    source: S,
    made: Result<T, AllocError>,
    ask: F,
) -> io::Result<()>
    requires { F.IsAlwaysCallable ask }
{
    match made {
        Ok(owned) => ask(report, source, &owned),
        Err(error) => Err(io::Error::from(error)),
    }
}

/// Returns the value, or `AllocError` for any other error of its constructor: none of the lists that are
/// measured is too long.
pub fn or_refused<T: Drop, E: Drop>(made: Result<T, E>) -> Result<T, AllocError> {
    match made {
        Ok(value) => Ok(value),
        Err(_) => Err(AllocError),
    }
}

/// Returns `count` values, each made of `source` by its number. They are of a generic type, as in `asked`.
pub fn many<S: Copy, T: Drop, F: FnOnce(Global, S, usize) -> Result<T, AllocError> + Copy>(
    alloc: Global,
    count: usize,
    source: S,
    make: F,
) -> Result<Vec<T>, AllocError>
    requires { F.IsAlwaysCallable make }
{
    let mut all = Vec::with_capacity(alloc, count)?;
    for number in 0..count {
        all.push(make(alloc, source, number)?)?;
    }
    Ok(all)
}

/// Returns the number of bits of one of `count` items in a structure of `bytes` bytes, in thousandths.
pub fn bits_per_item(bytes: usize, count: u64) -> u64 {
    (bytes as u64).saturating_mul(8).saturating_mul(1000) / count.max(1)
}
