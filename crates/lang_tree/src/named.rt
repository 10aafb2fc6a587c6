//! The names that parts of trees declare.

ghost use Rattle.lang_tree.specs.Names.{declared_name};

use super::tree::{ClientTree, Decl, InputTree, MethodTree};
use lang_base::{Name, Named};

impl Named for Decl {
    ghost name_of = { declared_name };

    fn name(&self) -> &Name {
        match self {
            Decl::Const { name, .. } => name,
            Decl::Param { name, .. } => name,
            Decl::Int { name, .. } => name,
            Decl::Copied { name, .. } => name,
            Decl::Flag { name, .. } => name,
        }
    }
}

impl Named for InputTree {
    ghost name_of = { λ input. input.name };

    fn name(&self) -> &Name {
        &self.name
    }
}

impl Named for MethodTree {
    ghost name_of = { λ method. method.name };

    fn name(&self) -> &Name {
        &self.name
    }
}

impl Named for ClientTree {
    ghost name_of = { λ client. client.name };

    fn name(&self) -> &Name {
        &self.name
    }
}
