// Packing an equation table (SPEC 8.8). What it means is in the crate `packing`; specs/ has what the inner functions
// compute.
#![tactic(auto)]

ghost use Rattle.std.specs.Prelude.{take, drop, ◌++◌, ◌≡◌, cond, ◌+◌, ◌*◌, ◌≤◌, ◌<◌, eqb, length};
ghost use Rattle.std.proofs.lemmas.List.Edits.{sets};
ghost use Rattle.lists.specs.Number.{number_at};
ghost use Rattle.limits.specs.Limits.{equation_limit, table_room, velocity_count};
ghost use Rattle.traces.specs.Trace.{truth};
ghost use Rattle.tables.specs.Table.{equation_at};
ghost use Rattle.packing.specs.Search.{first};
ghost use Rattle.packing.specs.Pack.{same_equation, classes, kept, packed, packed_count};
ghost use Rattle.packing.specs.Packing.{after_pack, packing};
ghost use Rattle.packing.specs.Laws.{PackAnswer};
ghost use Rattle.packer.specs.Round.{mixed_number, quick_key, same_quick_key, bucket_of, cleared, head_after};
ghost use Rattle.packer.specs.Round.{chains, round_of, Fitted, Walking, Classifiable};
ghost use Rattle.packer.specs.Mark.{pushed, visited, expanded, Push, Visit, Expand, Markable};
ghost use Rattle.packer.specs.Place.{filled, place_at, Placeable, Storable, Passing, packed_into};
ghost use Rattle.packer.specs.Place.{Packable, numbers_of};

use limits::Refusal;
use tables::{Equation, Operand};

// A table with names for its equations: an operand that has to be earlier goes by `names`, a memory's by `before`.
#[derive(Clone, Copy)]
struct Naming<'a> {
    table: &'a [u32],
    names: &'a [u32],
    before: &'a [u32],
}

impl Naming<'_> {
    // The number x of an equation, as its row has it.
    #[tactic(auto, unfolding(crate::specs::Round::mixed_number))]
    fn named(&self, o: Operand, x: u32) -> u32
        ensures { result ≡ mixed_number (number_at self.now.names.now) (number_at self.now.before.now) o x }
    {
        match o {
            Operand::Earlier(_) => lists::number_at(self.names, x as usize),
            Operand::Anywhere(_) => lists::number_at(self.before, x as usize),
            Operand::Unused | Operand::Below(_) | Operand::Velocity => x,
        }
    }

    // The key of equation i.
    #[tactic(auto, unfolding(crate::specs::Round::mixed))]
    fn key_at(&self, i: usize) -> Equation
        requires { 4 * i + 4 ≤ length self.now.table.now }
        ensures { result ≡ quick_key self.now.table.now (number_at self.now.names.now)
            (number_at self.now.before.now) i }
    {
        let kind = self.table[4 * i];
        let row = tables::row_of(kind);
        Equation {
            kind,
            a: self.named(row.a, self.table[4 * i + 1]),
            b: self.named(row.b, self.table[4 * i + 2]),
            c: self.named(row.c, self.table[4 * i + 3]),
        }
    }

    // Whether equation j has the key x.
    fn has_key(&self, j: usize, x: Equation) -> bool
        requires { 4 * j + 4 ≤ length self.now.table.now }
        ensures { result ≡ same_equation (quick_key self.now.table.now (number_at self.now.names.now)
            (number_at self.now.before.now) j) x }
    {
        self.table[4 * j] == x.kind && self.key_at(j) == x
    }

    // The first equation with the key x of equation i, by the chain of its bucket.
    fn walk(&self, n: usize, next: &[u32], i: usize, x: Equation, start: u32) -> usize
        requires { Walking self.now.table.now n self.now.names.now self.now.before.now next.now i x start }
        ensures { result ≡ first (same_quick_key self.now.table.now (number_at self.now.names.now)
            (number_at self.now.before.now) i) i }
    {
        let mut at = start;
        while 0 < at {
            let j = (at - 1) as usize;
            if self.has_key(j, x) {
                return self.names[j] as usize;
            }
            at = next[j];
        }
        i
    }
}

// How many parts the numbers of keys are spread over before they are fitted to n buckets, and the factor.
const SPREAD: u64 = 4294967296;

const FACTOR: u64 = 10368889;

// A bucket below n for a key.
#[tactic(auto, unfolding(crate::specs::Round::bucket_of), using(crate::proofs::Spread::part_below))]
fn bucket_of(x: Equation, n: usize) -> usize
    requires { (0 < n) × (n ≤ equation_limit) }
    ensures { (result ≡ bucket_of n x) × (result < n) }
{
    let sum = u64::from(x.kind) + 13 * u64::from(x.a) + 101 * u64::from(x.b) + 257 * u64::from(x.c);
    let part = sum * FACTOR % SPREAD;
    (part * n as u64 / SPREAD) as usize
}

// Clears the first n numbers.
fn clear(numbers: &mut [u32], n: usize)
    requires { n ≤ length numbers.old }
    ensures { numbers.new ≡ cleared n numbers.old }
{
    numbers[..n].fill(0);
}

// The head of a bucket after equation i, whose class is j.
fn head_after(i: usize, j: usize, head: u32) -> u32
    requires { i < equation_limit }
    ensures { result ≡ head_after i j head }
{
    if j == i { (i + 1) as u32 } else { head }
}

// A round: the classes of the n equations, after those of the round before.
fn round(
    table: &[u32],
    n: usize,
    names: &mut [u32],
    before: &[u32],
    next: &mut [u32],
    heads: &mut [u32],
)
    requires { Fitted table.now n × (n ≤ length names.old) × (n ≤ length next.old)
        × (n ≤ length heads.old) }
    ensures { chains names.new next.new heads.new
        ≡ round_of table.now (number_at before.now) n
        (chains names.old next.old heads.old) n }
{
    clear(heads, n);
    for i in 0..n {
        let naming = Naming {
            table,
            names,
            before,
        };
        let x = naming.key_at(i);
        let b = bucket_of(x, n);
        let head = heads[b];
        let j = naming.walk(n, next, i, x, head);
        names[i] = j as u32;
        next[i] = head;
        heads[b] = head_after(i, j, head);
    }
}

// The first n numbers of one buffer over those of another. `copy_from_slice` is a call of memmove here, and the archive
// for C needs none of C's functions but memcpy and memset (docs/FIRMWARE.md).
fn copy_over(from: &[u32], n: usize, to: &mut [u32])
    requires { (n ≤ length from.now) × (n ≤ length to.old) }
    ensures { to.new ≡ take n from.now ++ drop n to.old }
{
    for i in 0..n {
        to[i] = from[i];
    }
}

// The classes of the n equations (SPEC 16.2), in `names`: rounds until one changes nothing. The first n numbers of the
// other buffers are cleared in the end.
fn classify(
    table: &[u32],
    n: usize,
    names: &mut [u32],
    before: &mut [u32],
    next: &mut [u32],
    heads: &mut [u32],
)
    requires { Classifiable table.now n names.old before.old next.old heads.old }
    ensures { (names.new ≡ filled (classes table.now n) n names.old)
        × (before.new ≡ cleared n before.old)
        × (next.new ≡ cleared n next.old)
        × (heads.new ≡ cleared n heads.old) }
{
    clear(before, n);
    loop {
        round(table, n, names, before, next, heads);
        if before[..n] == names[..n] {
            break;
        }
        copy_over(names, n, before);
    }
    clear(before, n);
    clear(next, n);
    clear(heads, n);
}

// The marks of the equations, 1 for one that is marked and else 0; those that are marked, in the order in which they
// are found; and how many these are.
#[derive(Drop)]
struct Marker<'a> {
    marks: &'a mut [u32],
    found: &'a mut [u32],
    size: usize,
}

impl Marker<'_> {
    ghost use Rattle.packer.specs.Marker.{marking_of, SameBuffers};

    // Marks equation x, if it is not marked.
    #[tactic(auto, unfolding(crate::specs::Mark::pushed))]
    fn push(&mut self, x: u32)
        requires { Push (marking_of self.old) x }
        ensures same_buffers { SameBuffers self.new self.old }
        ensures marked { marking_of self.new ≡ pushed (marking_of self.old) x }
    {
        let i = x as usize;
        if self.marks[i] != 0 {
            return;
        }
        self.marks[i] = 1;
        self.found[self.size] = x;
        self.size += 1;
    }

    // Marks the class of the number x of an equation, if its row has an operand there.
    #[tactic(auto, unfolding(crate::specs::Mark::visited, crate::specs::Mark::Visit))]
    fn visit(&mut self, classes: &[u32], o: Operand, x: u32)
        requires { Visit classes.now (marking_of self.old) o x }
        ensures same_buffers { SameBuffers self.new self.old }
        ensures marked { marking_of self.new ≡ visited (number_at classes.now) (marking_of self.old) o x }
    {
        match o {
            Operand::Earlier(_) | Operand::Anywhere(_) => self.push(classes[x as usize]),
            Operand::Unused | Operand::Below(_) | Operand::Velocity => {}
        }
    }

    // Marks the classes of the operands of equation j.
    fn expand(&mut self, table: &[u32], j: usize, classes: &[u32])
        requires { Expand table.now j classes.now (marking_of self.old) }
        ensures same_buffers { SameBuffers self.new self.old }
        ensures marked { marking_of self.new
            ≡ expanded (number_at classes.now) (marking_of self.old) (equation_at table.now j) }
    {
        let row = tables::row_of(table[4 * j]);
        self.visit(classes, row.a, table[4 * j + 1]);
        self.visit(classes, row.b, table[4 * j + 2]);
        self.visit(classes, row.c, table[4 * j + 3]);
    }
}

// Marks with 1 the equations that are kept (SPEC 16.3), and the others with 0. The first n numbers of `found` are
// cleared in the end.
fn mark(table: &[u32], n: usize, classes: &[u32], marks: &mut [u32], found: &mut [u32])
    requires { Markable table.now n classes.now marks.old × (n ≤ length found.old) }
    ensures { (marks.new
        ≡ filled (λ i. truth (kept table.now n i)) n marks.old)
        × (found.new ≡ cleared n found.old) }
{
    clear(marks, n);
    let mut marker = Marker {
        marks,
        found,
        size: 0,
    };
    marker.push((n - 1) as u32);
    marker.push((n - tables::CLOSING) as u32);
    let mut done = 0;
    while done < marker.size {
        let j = marker.found[done] as usize;
        marker.expand(table, j, classes);
        done += 1;
    }
    clear(marker.found, n);
}

// The place of equation i, whose class is c: its own, or that of its class, which has been found.
fn place_of(names: &[u32], i: usize, c: u32, size: u32) -> u32
    requires { c < length names.now }
    ensures { result ≡ cond (eqb c i) size (number_at names.now c) }
{
    let j = c as usize;
    if j == i { size } else { names[j] }
}

// Replaces the class of each of the n equations by how many are kept before it, which is its place in the packed table
// where it is kept (SPEC 16.4): how many are kept.
fn place(table: &[u32], n: usize, marks: &[u32], names: &mut [u32]) -> usize
    requires { Placeable table.now n marks.now names.old }
    ensures { (names.new ≡ filled (place_at table.now n) n names.old)
        × (result ≡ packed_count table.now n) }
{
    let mut size = 0;
    for i in 0..n {
        names[i] = place_of(names, i, names[i], size);
        size += u32::from(marks[i] != 0);
    }
    size as usize
}

// Stores the four numbers of an equation as equation p.
fn put(second: &mut [u32], p: usize, x: Equation)
    requires { 4 * p + 4 ≤ length second.old }
    ensures { second.new ≡ sets second.old (4 * p) (numbers_of x) }
{
    second[4 * p] = x.kind;
    second[4 * p + 1] = x.a;
    second[4 * p + 2] = x.b;
    second[4 * p + 3] = x.c;
}

// Stores the packed table: the equations that are kept, with places for their operands.
fn emit(table: &[u32], n: usize, marks: &[u32], places: &[u32], second: &mut [u32])
    requires { Storable table.now n marks.now places.now second.old }
    ensures { second.new ≡ sets second.old 0 (packed table.now n) }
{
    let naming = Naming {
        table,
        names: places,
        before: places,
    };
    let mut size = 0;
    for i in 0..n {
        if marks[i] != 0 {
            put(second, size, naming.key_at(i));
            size += 1;
        }
    }
}

// Packs a well-formed table into a second one with room, in four buffers, whose first n numbers are cleared in the end:
// how many equations are kept.
fn pack_within(
    table: &[u32],
    n: usize,
    second: &mut [u32],
    names: &mut [u32],
    before: &mut [u32],
    next: &mut [u32],
    heads: &mut [u32],
) -> usize
    requires { Packable table.now n second.old names.old before.old next.old heads.old }
    ensures { (result ≡ packed_count table.now n)
        × (second.new ≡ sets second.old 0 (packed table.now n))
        × (names.new ≡ cleared n names.old)
        × (before.new ≡ cleared n before.old)
        × (next.new ≡ cleared n next.old)
        × (heads.new ≡ cleared n heads.old) }
{
    classify(table, n, names, before, next, heads);
    mark(table, n, names, heads, next);
    let size = place(table, n, heads, names);
    emit(table, n, heads, names, second);
    clear(names, n);
    clear(heads, n);
    size
}

// Packs a well-formed table that has no more equations than N, in four buffers of N numbers.
fn pack_in<const N: usize>(table: &[u32], n: usize, second: &mut [u32]) -> usize
    requires { Passing table.now n × (table_room ≤ length second.old) × (n ≤ N) × (N ≤ equation_limit) }
    ensures { (result ≡ packed_count table.now n)
        × (second.new ≡ sets second.old 0 (packed table.now n)) }
{
    let mut names = [0u32; N];
    let mut before = [0u32; N];
    let mut next = [0u32; N];
    let mut heads = [0u32; N];
    pack_within(
        table,
        n,
        second,
        &mut names,
        &mut before,
        &mut next,
        &mut heads,
    )
}

// Packs a well-formed table, if the second table has room. A table that has no more equations than a rule's gets small
// buffers: to make the large ones takes longer than all the rest.
fn pack_checked(table: &[u32], n: usize, second: &mut [u32]) -> Result<usize, Refusal>
    requires { Passing table.now n }
    ensures { after_pack result second.new ≡ packed_into table.now n second.old }
{
    if second.len() < limits::TABLE {
        return Err(Refusal::ShortTable);
    }
    if n <= limits::RULE_EQUATIONS {
        Ok(pack_in::<{ limits::RULE_EQUATIONS }>(table, n, second))
    } else {
        Ok(pack_in::<{ limits::EQUATIONS }>(table, n, second))
    }
}

// Packs a table into a second one (SPEC 8.8).
pub fn pack(table: &[u32], n: usize, second: &mut [u32]) -> Result<usize, Refusal>
    ensures second_after { after_pack result second.new
        ≡ packing velocity_count table.now n second.old }
    ensures pack_answer { PackAnswer velocity_count table.now n second.old result second.new }
{
    tables::check_table(limits::VELOCITIES, table, n)?;
    pack_checked(table, n, second)
}
