//! Certificates as lists.

ghost use Rattle.std.specs.Prelude.{◌≡◌};
ghost use Rattle.logic_outline.specs.Outlines.{cert_of, outline_of};

use logic_cert::Cert;
use logic_linear::Lin;
use std::marker::Model;

/// A part of a certificate, as it stands in a list.
#[derive(Debug, Drop)]
pub enum Node {
    /// A split: so many certificates come, one after the other.
    Parts(u64),
    /// A clash or a chain.
    End(Cert),
    /// Cases: the certificates of both sides of the form come, one after the other.
    Sides(Lin),
}

/// A certificate, which contracts see as it is, kept as the list of its splits, cases, clashes
/// and chains in the order of its text. So reading it, checking it and dropping it call themselves
/// nowhere, however deep its splits and cases nest.
#[derive(Debug, Drop)]
pub struct Outline {
    nodes: Vec<Node>,
}

impl Model for Outline {
    ghost use Rattle.std.specs.Prelude.{◌≡◌};
    ghost use Rattle.std.specs.Coded.{codes};
    ghost use Rattle.logic_cert.specs.contracts.cert.Cert as certificate;
    ghost use Rattle.logic_cert.specs.declared.cert.Cert.{Cert as Certificate};

    ghost Value = { Certificate };

    ghost coded = { Prim.hlevel (codes, certificate.the_row.coded) };

    ghost use Rattle.logic_outline.specs.Outlines.{cert_of, outline_of};

    ghost view = { λ outline. cert_of outline.nodes.items };

    ghost invariant = { λ outline.
        outline_of (cert_of outline.nodes.items) ≡ outline.nodes.items };
}

impl Outline {
    /// The certificate of these nodes.
    pub(crate) fn of(nodes: Vec<Node>) -> Outline
        requires { outline_of (cert_of nodes.items) ≡ nodes.items }
        ensures { result ≡ cert_of nodes.items }
    {
        Outline { nodes }
    }

    /// The nodes, in the order of the text.
    pub(crate) fn nodes(&self) -> &[Node]
        ensures { result.now ≡ outline_of self.now }
    {
        self.nodes.as_slice()
    }
}
