//! A service: the libraries of all sessions, and the last reply.
ghost use Rattle.std.specs.Prelude.{◌≡◌, ◌≢◌, ◌≤◌, [], IfOk, Some, ℕ};
ghost use Rattle.ctf_c.specs.service.Operating.{Leaves, Loads};
ghost use Rattle.ctf_broker.specs.Table.{library_at};
ghost use Rattle.ctf_protocol.specs.sessions.State.{empty_state};
ghost use Rattle.ctf_wire.specs.Serving.{BrokerStep};
ghost use Rattle.ctf_wire.specs.ServingAs.{LineStepsAs};

use crate::out_pointers::status;
use ctf_lines::{SHORT_PASS, Scratch};
use ctf_protocol::PublicationName;
use ctf_wire::{Broker, Machine, step_as};
use std::alloc::{AllocError, Global};
use std::marker::Model;

/// All sessions of a service, with the memory that is kept from line to line.
#[derive(Drop)]
pub struct Service {
    broker: Broker,
    scratch: Scratch,
    reply: Vec<u8>,
}

impl Model for Service {
    ghost use Rattle.std.specs.Prelude.{◌≤◌, vec_capacity};
    ghost use Rattle.ctf_c.specs.service.Served.{Served};

    ghost Value = { Served };

    ghost view = { λ s. record { libraries = s.broker; reply = s.reply.items } };

    ghost invariant = { λ s. 131072 ≤ vec_capacity s.reply };
}

impl Service {
    /// A service whose sessions are all new.
    pub fn new(alloc: Global) -> Result<Service, AllocError>
        ensures empty { IfOk result (λ s. (session : ℕ)
            → library_at s.libraries session ≡ empty_state) }
        ensures silent { IfOk result (λ s. s.reply ≡ []) }
    {
        let reply = Vec::with_capacity(alloc, SHORT_PASS)?;
        Ok(Service {
            broker: Broker::new(alloc),
            scratch: Scratch::new(alloc),
            reply,
        })
    }

    /// Answers a line, and keeps the reply.
    pub fn answer(&mut self, line: &[u8])
        ensures { BrokerStep self.old.libraries (Some line.now) self.new.reply self.new.libraries }
    {
        self.reply.clear();
        Machine::step(&mut self.broker, &mut self.scratch, line, &mut self.reply);
    }

    /// Answers a line of a given session, whatever number the line names, and keeps the reply.
    pub fn answer_as(&mut self, session: u32, line: &[u8])
        requires { session ≢ 0 }
        ensures { LineStepsAs self.old.libraries session line.now self.new.reply
            self.new.libraries }
    {
        self.reply.clear();
        step_as(
            &mut self.broker,
            &mut self.scratch,
            session,
            line,
            &mut self.reply,
        );
    }

    /// Publishes a section for the operator, under a name that is not in use: 0, or the status of
    /// its refusal.
    pub fn load(&mut self, name: &PublicationName, ctf: Vec<u8>) -> u32
        ensures { Loads name.now ctf.items result self.old self.new }
    {
        match self.broker.load_section(name, ctf) {
            Ok(_) => 0,
            Err(fault) => status(fault),
        }
    }

    /// Forgets a session: all that it has, and all that it has published.
    pub fn leave(&mut self, session: u32)
        ensures { Leaves session self.old self.new }
    {
        self.broker.leave(session);
    }

    /// The last reply.
    pub fn reply(&self) -> &[u8]
        ensures { result.now ≡ self.now.reply }
    {
        self.reply.as_slice()
    }
}
