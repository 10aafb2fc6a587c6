//! Certificates made into lists.

ghost use Rattle.std.specs.Prelude.{◌≡◌, ◌++◌, reverse, IfOk, OnOk};

use super::outline::{Node, Outline};
use base_list::Seq;
use logic_cert::Cert;
use std::alloc::{AllocError, Global};

/// The certificate, as a list. It takes one certificate after the other apart from a list of its
/// own, and fails only for want of memory.
pub fn outlined(alloc: Global, cert: Cert) -> Result<Outline, AllocError>
    ensures { IfOk result (λ outline. outline ≡ cert) }
{
    let mut nodes = Vec::new(alloc);
    let mut todo = Vec::new(alloc);
    todo.push(cert)?;
    while let Some(cert) = todo.pop() {
        match cert {
            Cert::Split(certs) => {
                nodes.push(Node::Parts(certs.items().len() as u64))?;
                put_first(certs, &mut todo)?;
            }
            Cert::Clash { left, right } => nodes.push(Node::End(Cert::Clash { left, right }))?,
            Cert::Chain(combines) => nodes.push(Node::End(Cert::Chain(combines)))?,
            Cert::Cases { form, below, above } => {
                nodes.push(Node::Sides(form))?;
                todo.push(above.into_inner())?;
                todo.push(below.into_inner())?;
            }
        }
    }
    Ok(Outline::of(nodes))
}

/// Puts the certificates on those to do, so that the first one comes first.
fn put_first(certs: Seq<Cert>, todo: &mut Vec<Cert>) -> Result<(), AllocError>
    ensures { OnOk result (reverse todo.new.items ≡ certs ++ reverse todo.old.items) }
{
    let mut certs = certs.into_items();
    while let Some(cert) = certs.pop() {
        todo.push(cert)?;
    }
    Ok(())
}
