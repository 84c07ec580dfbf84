// The links, and how a place leaves its ring and enters another.
ghost use Rattle.std.specs.Prelude.{◌≡◌, ◌≢◌, ◌<◌, ◌≤◌, ℕ, length, slice_index_or, vec_capacity};
ghost use Rattle.lists.specs.ChainLinks.{Crosses, Grows, IsWound, Writes, next_of, no_link, prev_of};

/// Where a place leads.
#[derive(Clone, Copy)]
pub struct Link {
    pub next: usize,
    pub prev: usize,
}

// A place that leads to itself.
fn alone(place: usize) -> Link
    ensures { result ≡ record { next = place; prev = place } }
{
    Link {
        next: place,
        prev: place,
    }
}

// Where a place leads.
pub fn next_of(links: &Vec<Link>, at: usize) -> usize
    requires { at < length links.now.items }
    ensures { result ≡ next_of links.now.items at }
{
    links[at].next
}

// Where a place leads back.
pub fn prev_of(links: &Vec<Link>, at: usize) -> usize
    requires { at < length links.now.items }
    ensures { result ≡ prev_of links.now.items at }
{
    links[at].prev
}

// Where a place leads from now on.
fn set_next(links: &mut [Link], at: usize, to: usize)
    requires { at < length links.old }
    ensures next { Writes (next_of links.old) (next_of links.new) at to }
    ensures prev { (x : ℕ) → prev_of links.new x ≡ prev_of links.old x }
    ensures len { length links.new ≡ length links.old }
{
    links[at].next = to;
}

// Where a place leads back from now on.
fn set_prev(links: &mut [Link], at: usize, to: usize)
    requires { at < length links.old }
    ensures prev { Writes (prev_of links.old) (prev_of links.new) at to }
    ensures next { (x : ℕ) → next_of links.new x ≡ next_of links.old x }
    ensures len { length links.new ≡ length links.old }
{
    links[at].prev = to;
}

// A place leads to itself from now on, and its neighbours to each other.
fn unlink(links: &mut [Link], key: usize)
    requires key_in { key < length links.old }
    requires wound { IsWound (next_of links.old) (prev_of links.old) (length links.old) }
    ensures crosses { Crosses (next_of links.old) (prev_of links.old) (next_of links.new)
        (prev_of links.new) key (prev_of links.old key) }
    ensures len { length links.new ≡ length links.old }
{
    let Link { next, prev } = links[key];
    set_next(links, prev, next);
    set_prev(links, next, prev);
    set_next(links, key, key);
    set_prev(links, key, key);
}

// A place that leads to itself stands right before another one from now on.
fn link_before(links: &mut [Link], key: usize, other: usize)
    requires key_in { key < length links.old }
    requires other_in { other < length links.old }
    requires differs { key ≢ other }
    requires alone { next_of links.old key ≡ key }
    requires wound { IsWound (next_of links.old) (prev_of links.old) (length links.old) }
    ensures crosses { Crosses (next_of links.old) (prev_of links.old) (next_of links.new)
        (prev_of links.new) key (prev_of links.old other) }
    ensures len { length links.new ≡ length links.old }
{
    let prev = links[other].prev;
    set_next(links, key, other);
    set_prev(links, key, prev);
    set_next(links, prev, key);
    set_prev(links, other, key);
}

// A place leaves its ring, and is one by itself. It is crossed with the one before it. The links are handed on as a slice, so that
// where they lie is looked up once and not at each write.
pub fn leave(links: &mut Vec<Link>, key: usize)
    requires key_in { key < length links.old.items }
    requires wound { IsWound (next_of links.old.items) (prev_of links.old.items)
        (length links.old.items) }
    ensures crosses { Crosses (next_of links.old.items) (prev_of links.old.items)
        (next_of links.new.items) (prev_of links.new.items) key (prev_of links.old.items key) }
    ensures len { length links.new.items ≡ length links.old.items }
    ensures capacity { vec_capacity links.new ≡ vec_capacity links.old }
{
    unlink(links, key);
}

// A place that is a ring by itself enters that of another, right before it. It is crossed with the one before that.
pub fn enter(links: &mut Vec<Link>, key: usize, other: usize)
    requires key_in { key < length links.old.items }
    requires other_in { other < length links.old.items }
    requires differs { key ≢ other }
    requires alone { next_of links.old.items key ≡ key }
    requires wound { IsWound (next_of links.old.items) (prev_of links.old.items)
        (length links.old.items) }
    ensures crosses { Crosses (next_of links.old.items) (prev_of links.old.items)
        (next_of links.new.items) (prev_of links.new.items) key (prev_of links.old.items other) }
    ensures len { length links.new.items ≡ length links.old.items }
    ensures capacity { vec_capacity links.new ≡ vec_capacity links.old }
{
    link_before(links, key, other);
}

// Each further place below the limit leads to itself.
pub fn grow(links: &mut Vec<Link>, limit: usize)
    requires more { length links.old.items ≤ limit }
    requires room { limit ≤ vec_capacity links.old }
    ensures grows { Grows links.old.items links.new.items }
    ensures len { length links.new.items ≡ limit }
    ensures capacity { vec_capacity links.new ≡ vec_capacity links.old }
{
    for place in links.len()..limit {
        links.push_reserved(alone(place));
    }
}

// Each place leads to itself from now on.
pub fn reset(links: &mut Vec<Link>)
    ensures alone { (x : ℕ) → x < length links.new.items →
        slice_index_or links.new.items x no_link ≡ record { next = x; prev = x } }
    ensures len { length links.new.items ≡ length links.old.items }
    ensures capacity { vec_capacity links.new ≡ vec_capacity links.old }
{
    for place in 0..links.len() {
        links[place] = alone(place);
    }
}
