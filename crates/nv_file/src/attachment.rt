//! The attachments of a file.
ghost use Rattle.std.specs.Prelude.{◌≡◌, map, pos};
ghost use Rattle.std.specs.List.{list_all, list_any};
ghost use Rattle.std.specs.Ordering.{int_eq};
ghost use Rattle.nv_file.specs.FileValue.{controller_entry_view, namespace_entry_view};
ghost use Rattle.nv_file.specs.File.{is_cntlid, differ, may_attach, attaches};

use crate::controller::ControllerEntry;
use crate::namespace::NamespaceEntry;

fn is_cntlid(controllers: &[ControllerEntry], number: i64) -> bool
    ensures { result ≡ list_any (λ c. int_eq (pos c.identity.cntlid) number) controllers.now }
{
    controllers.iter().any(|controller| i64::from(controller.identity.cntlid) == number)
}

fn are_cntlids(controllers: &[ControllerEntry], numbers: &[i64]) -> bool
    ensures { result ≡
        list_all (λ z. list_any (λ c. int_eq (pos c.identity.cntlid) z) controllers.now)
        numbers.now }
{
    numbers.iter().all(|number| is_cntlid(controllers, *number))
}

fn stands_in(number: i64, numbers: &[i64]) -> bool
    ensures { result ≡ list_any (λ y. int_eq y number) numbers.now }
{
    numbers.iter().any(|other| *other == number)
}

/// Returns whether no number occurs twice.
#[tactic(auto, using(crate::proofs::Fused::differ_at))]
fn differ(numbers: &[i64]) -> bool
    ensures { result ≡ differ numbers.now }
{
    for i in 0..numbers.len() {
        if stands_in(numbers[i], &numbers[i + 1..]) {
            return false;
        }
    }
    true
}

#[tactic(auto, using(crate::proofs::Fused::all_cntlids))]
fn may_attach(controllers: &[ControllerEntry], namespace: &NamespaceEntry) -> bool
    ensures { result ≡
        may_attach (map controller_entry_view controllers.now)
        (namespace_entry_view namespace.now) }
{
    let numbers = &namespace.controllers;
    let few = namespace.namespace.shared || numbers.len() <= 1;
    are_cntlids(controllers, numbers) && differ(numbers) && few
}

fn all_attach(controllers: &[ControllerEntry], namespaces: &[NamespaceEntry]) -> bool
    ensures { result ≡
        list_all (λ n. may_attach (map controller_entry_view controllers.now)
        (namespace_entry_view n)) namespaces.now }
{
    namespaces
        .iter()
        .all(|namespace| may_attach(controllers, namespace))
}

/// Returns whether each namespace is attached to controllers of the file, to none of them twice,
/// and a private one to at most one.
#[tactic(auto, using(crate::proofs::Fused::all_attach), unfolding(crate::specs::File::attaches))]
pub(crate) fn attaches(controllers: &[ControllerEntry], namespaces: &[NamespaceEntry]) -> bool
    ensures { result ≡
        attaches (map controller_entry_view controllers.now)
        (map namespace_entry_view namespaces.now) }
{
    all_attach(controllers, namespaces)
}
