//! The rule of the table, and what its steps tell.
ghost use Rattle.hist_lock.specs.Rule.{Kept, newcomer, Takes, Counts, Gives, Checks, first_role, other_roles, witness, joined, spent};

use crate::view::{About, Home, View};
use atomic_table::{Join, Play, Split, TableRule};
use std::marker::PhantomData;
use suri_base::Machine;

/// The rule of a lock over the machine `M`.
pub struct Law<M> {
    of: PhantomData<M>,
}

impl<M: Machine> TableRule<Option<Home<M, M::Note>>, View<M::Note, M::Fixed>, About<M>> for Law<M> {
    ghost holds = { λ about. Kept M.fixed M.stands M.may M.answers (M.fixed about.machine.value) about.roles };

    ghost first = { λ about. newcomer (M.fixed about.machine.value) about.roles };
}

// A role asks for the turn.
pub(crate) struct Take<M> {
    of: PhantomData<M>,
}

impl<M: Machine> Play<Option<Home<M, M::Note>>, View<M::Note, M::Fixed>> for Take<M> {
    ghost then = { Takes M.fixed M.stands M.may M.answers };
}

// An entry is counted.
pub(crate) struct Count;

impl<A, N, F> Play<Option<Home<A, N>>, View<N, F>> for Count {
    ghost then = { Counts };
}

// The turn is given back.
pub(crate) struct Give;

impl<A, N, F> Play<Option<Home<A, N>>, View<N, F>> for Give {
    ghost then = { Gives };
}

// The count is read, and nothing changes.
pub(crate) struct Check<M> {
    of: PhantomData<M>,
}

impl<M: Machine> Play<Option<Home<M, M::Note>>, View<M::Note, M::Fixed>> for Check<M> {
    ghost then = { Checks M.fixed M.stands M.may M.answers };
}

// The first role goes to a seat of its own.
pub(crate) struct Deal;

impl<N, F> Split<View<N, F>> for Deal {
    ghost left = { other_roles };

    ghost right = { first_role };
}

// A copy without a role.
pub(crate) struct Copied;

impl<N, F> Split<View<N, F>> for Copied {
    ghost left = { λ v. v };

    ghost right = { witness };
}

// A seat takes in another one, with all that it has seen.
pub(crate) struct TakeIn;

impl<N, F> Join<View<N, F>> for TakeIn {
    ghost both = { joined };

    ghost spent = { spent };
}
