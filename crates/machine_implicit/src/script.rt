//! What clients call.

ghost use Rattle.std.specs.Prelude.{◌≡◌};

use base_list::Seq;
use lang_base::{Name, Named, Value};
use std::marker::Model;

/// A call of a method, counted from 0, with a value for each of its parameters. One that tries does
/// not wait at its first block. Each call of a method that asserts tries.
#[derive(Debug, Drop)]
pub struct Call {
    pub method: u32,
    pub inputs: Seq<Value>,
    pub tries: bool,
}

/// A client: its name and its calls, in order.
#[derive(Debug, Drop)]
pub struct Client {
    pub name: Name,
    pub calls: Seq<Call>,
}

impl Named for Client {
    ghost name_of = { λ client. client.name };

    fn name(&self) -> &Name {
        &self.name
    }
}

/// Clients in file order: at most 32, whose names are distinct identifiers and no keywords, with at
/// most 16,384 calls in all.
#[derive(Debug, Drop)]
pub struct Scripts {
    clients: Seq<Client>,
}

impl Model for Scripts {
    ghost use Rattle.std.specs.Prelude.{List};
    ghost use Rattle.machine_implicit.specs.declared.script.Client.{Client};
    ghost use Rattle.machine_implicit.specs.Scripted.{AreClients};

    ghost Value = { List Client };

    ghost view = { λ scripts. scripts.clients };

    ghost invariant = { λ scripts. AreClients scripts.clients };
}

impl Scripts {
    ghost use Rattle.machine_implicit.specs.Scripted.{AreClients};

    /// The scripts of these clients. It takes no memory. [`are_clients`](crate::are_clients) tests
    /// what it requires.
    pub fn of(clients: Vec<Client>) -> Scripts
        requires { AreClients clients.items }
        ensures { result ≡ clients.items }
    {
        Scripts {
            clients: Seq::of(clients),
        }
    }

    /// The clients.
    pub fn clients(&self) -> &[Client]
        ensures clients { result.now ≡ self.now }
        ensures rule { AreClients self.now }
    {
        self.clients.items()
    }
}
