// The tree and the plan that an archive of an edition tells, as a table and marks. The bytes may be anything: a number
// that is no place of an array is taken for 0, and the time is in proportion to pages and nodes.
ghost use Rattle.std.specs.Prelude.{◌≡◌, List, ℕ, ◌≤◌, ◌<◌, eqb, length};
ghost use Rattle.model.specs.Basics.{pick};
ghost use Rattle.model.specs.Archive.{nodes_in};
ghost use Rattle.theory.specs.Put.{Starts};
ghost use Rattle.records.specs.Size.{archive_nodes, film_slots, longest_table};
ghost use Rattle.records.specs.Links.{Fit};
ghost use Rattle.film.specs.Decoded.{Decoded};
ghost use Rattle.film.specs.DecodeTable.{WrittenBy, Loaded, fitted, tree_upto};
ghost use Rattle.film.specs.DecodeMarks.{run_end, mark_for, Lasts, MarksInput, MarksRow};

use crate::fields::Film;
use records::links::link_next;
use records::size::FILM_SLOTS;
use words::put::{put_record, put_word};

// A number that has a place in the arrays, or 0.
#[tactic(auto, using(crate::proofs::Tests::tests), unfolding(crate::specs::DecodeTable::fitted))]
fn fit(x: u16) -> u16
    ensures { result ≡ fitted x }
{
    if (x as usize) < FILM_SLOTS { x } else { 0 }
}

// A link to the next sibling; node 1 has none.
#[tactic(auto, using(crate::proofs::Tests::tests))]
fn sibling_of(v: u16, link: u16) -> u16
    ensures { result ≡ pick (eqb v 1) 0 link }
{
    if v == 1 { 0 } else { link }
}

// The parents of the nodes.
fn load_parents(film: Film, nodes: u16) -> [u16; FILM_SLOTS]
    requires { nodes < film_slots }
    ensures { Loaded film.entry.format.edition film.entry.archive.now nodes result }
{
    let mut parents = [0; FILM_SLOTS];
    for v in 1..=nodes {
        parents[v as usize] = fit(film.parent(v));
    }
    parents
}

// For each node that begins a run, the last of the run, and 0 for the others.
fn load_lasts(film: Film) -> [u16; FILM_SLOTS]
    ensures { (t m : List ℕ) → WrittenBy film.entry.format.edition film.entry.archive.now t m → Lasts t m result }
{
    let mut lasts = [0; FILM_SLOTS];
    for q in 1..=fit(film.pages()) {
        let first = fit(film.page_field(q, 0));
        lasts[first as usize] = film.page_field(q, 1);
    }
    lasts
}

// The table of the tree, with these links to the next sibling.
fn fill_tree(film: Film, links: &[u16; FILM_SLOTS], tree: &mut [u8])
    requires { (nodes_in film.format.edition film.archive.now ≤ film.format.edition.most)
        × (longest_table film.format.edition ≤ length tree.old) }
    ensures { Starts tree.new (tree_upto film.entry.format.edition film.entry.archive.now links.now
        (nodes_in film.entry.format.edition film.entry.archive.now)) }
{
    let nodes = film.nodes();
    put_word(tree, 0, nodes);
    put_word(tree, 1, film.limit());
    for v in 1..=nodes {
        let at = 2 + 4 * ((v - 1) as u32);
        let weight = film.node_field(v, 0);
        let label = film.node_field(v, 1);
        let first = film.first_child(v);
        let next = sibling_of(v, links[v as usize]);
        put_record(tree, at, weight, label, first, next);
    }
}

// The last of the run that node v is in: of the run that it begins, or else of the run that the sibling before it
// carries to it. Here and in the arrays 0 stands for none, as it does on film: there is no node 0.
#[tactic(auto, using(crate::proofs::Tests::tests), unfolding(crate::specs::DecodeMarks::run_end))]
fn run_end(v: u16, last: u16, due: u16) -> u16
    ensures { result ≡ run_end v last due }
{
    if last != 0 {
        last
    } else if v <= due {
        due
    } else {
        0
    }
}

// The mark of a node by the last of the run that it begins, and the last of the run that it is in.
#[tactic(auto, using(crate::proofs::Tests::tests), unfolding(crate::specs::DecodeMarks::mark_for))]
fn mark_for(last: u16, end: u16) -> u8
    ensures { result ≡ mark_for last end }
{
    if last != 0 {
        1
    } else if end != 0 {
        2
    } else {
        0
    }
}

// The marks of the plan. A node's due is the last of the run that the sibling before it is in.
fn fill_marks(nodes: u16, lasts: &[u16; FILM_SLOTS], links: &[u16; FILM_SLOTS], plan: &mut [u8])
    requires { (nodes ≤ archive_nodes) × Fit nodes links.now × (nodes ≤ length plan.old) }
    ensures { (t m : List ℕ) → MarksInput t m lasts.now links.now nodes
        → MarksRow m nodes plan.new }
{
    let mut due = [0; FILM_SLOTS];
    for v in 1..=nodes {
        let i = v as usize;
        let last = lasts[i];
        let end = run_end(v, last, due[i]);
        let next = sibling_of(v, links[i]);
        plan[i - 1] = mark_for(last, end);
        due[next as usize] = end;
    }
}

// The tree and the plan that the archive tells, if it is one, at the start of what is lent for them. Never inlined, so
// that what decoding needs on the stack is gone before the film is held against its writer.
#[inline(never)]
pub fn decode(film: Film, tree: &mut [u8], plan: &mut [u8])
    requires { (longest_table film.format.edition ≤ length tree.old) × (film.format.edition.most ≤ length plan.old) }
    ensures { Decoded film.entry.format.edition film.entry.archive.now tree.new plan.new }
{
    let nodes = film.nodes();
    if film.format.edition.most < nodes {
        return;
    }
    let parents = load_parents(film, nodes);
    let links = link_next(&parents, nodes);
    let lasts = load_lasts(film);
    fill_tree(film, &links, tree);
    fill_marks(nodes, &lasts, &links, plan);
}
