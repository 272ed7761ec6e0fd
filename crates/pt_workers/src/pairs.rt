//! Desks paired with their work, as a run takes them.

ghost use Rattle.std.specs.Prelude.{◌≡◌, ◌≤◌, [], map, vec_len};
ghost use Rattle.std.specs.Vec.{vec_capacity};

use pt_desk::Desk;

/// Pairs each desk with the work at its place, in order, as [`run`](crate::run) takes them.
///
/// It takes no memory: the list of pairs must be empty, with room for all of them. After it the other two lists are
/// empty, and keep their room for what [`release`] gives back.
pub fn assign<W>(desks: &mut Vec<Desk>, works: &mut Vec<W>, pairs: &mut Vec<(Desk, W)>)
    requires as_many { vec_len works.old ≡ vec_len desks.old }
    requires room { (pairs.old.items ≡ []) × (vec_len desks.old ≤ vec_capacity pairs.old) }
    ensures desks { map (λ p. p.0) pairs.new.items ≡ desks.old.items }
    ensures works { map (λ p. p.1) pairs.new.items ≡ works.old.items }
    ensures empty { (desks.new.items ≡ []) × (works.new.items ≡ []) }
    ensures kept { (vec_capacity desks.new ≡ vec_capacity desks.old)
        × (vec_capacity works.new ≡ vec_capacity works.old) }
{
    desks.reverse();
    works.reverse();
    while let Some(desk) = desks.pop() {
        pairs.push_reserved((desk, works.pop().unwrap()));
    }
}

/// Parts the desks from their work, in order, as `gather` of `pt_node` takes them.
///
/// It takes no memory: the other two lists must be empty, with room for all. After it the list of pairs is empty.
pub fn release<W>(pairs: &mut Vec<(Desk, W)>, desks: &mut Vec<Desk>, works: &mut Vec<W>)
    requires desks { (desks.old.items ≡ []) × (vec_len pairs.old ≤ vec_capacity desks.old) }
    requires works { (works.old.items ≡ []) × (vec_len pairs.old ≤ vec_capacity works.old) }
    ensures desks { desks.new.items ≡ map (λ p. p.0) pairs.old.items }
    ensures works { works.new.items ≡ map (λ p. p.1) pairs.old.items }
    ensures empty { pairs.new.items ≡ [] }
{
    pairs.reverse();
    while let Some((desk, work)) = pairs.pop() {
        desks.push_reserved(desk);
        works.push_reserved(work);
    }
}
