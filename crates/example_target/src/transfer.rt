//! The transfer, and its target.
ghost use Rattle.std.specs.Prelude.{◌≡◌, codes};
ghost use Rattle.std.proofs.Common.{rules};
ghost use Rattle.example_target.specs.Steps.{point_names, label_of, judged, put_back, asks_of, asks-within, asks-halts};

use std::alloc::AllocError;
use std::marker::Model;
use target_trait::{Answer, Judgement, Session, Target};

/// What a transfer does if the second step is refused.
#[derive(Clone, Copy, Debug, PartialEq, Eq)]
pub enum Care {
    /// It puts the amount back.
    Careful,
    /// It does nothing.
    Careless,
}

/// What is transferred.
#[derive(Clone, Copy, Debug, Drop)]
pub struct Amount {
    pub cents: u32,
}

/// A transfer between two accounts: what is taken from one is given to the other. It promises that no cent is lost.
#[derive(Drop)]
pub struct Transfer {
    care: Care,
    payer: u32,
    payee: u32,
}

impl Model for Transfer {
    ghost use Rattle.example_target.specs.declared.transfer.Care.{Care};

    ghost Value = { Care };

    ghost view = { λ t. t.care };
}

impl Transfer {
    /// A transfer that takes this care.
    pub fn new(care: Care) -> Self
        ensures { result ≡ care }
    {
        Transfer {
            care,
            payer: 0,
            payee: 0,
        }
    }
}

/// What the payer has after giving was refused.
fn put_back(care: Care, cents: u32) -> u32
    ensures { result ≡ put_back care cents }
{
    match care {
        Care::Careful => cents,
        Care::Careless => 0,
    }
}

/// The judgement of what the accounts hold.
fn judgement(cents: u32, payer: u32, payee: u32) -> Judgement
    ensures { result ≡ judged cents payer payee }
{
    if u64::from(payer) + u64::from(payee) == u64::from(cents) {
        Judgement::Kept
    } else {
        Judgement::Broken(0)
    }
}

impl Target for Transfer {
    type Workload = Amount;

    ghost names = { point_names };

    ghost label_of = { label_of };

    ghost code_text = { λ _. codes "lost" };

    ghost asks = { λ care amount answers. asks_of care amount.cents answers };

    fn label(&self) -> &'static str {
        match self.care {
            Care::Careful => "transfer careful",
            Care::Careless => "transfer careless",
        }
    }

    fn catalogue() -> &'static [&'static str] {
        &["transfer::take", "transfer::give"]
    }

    fn code_name(_code: u32) -> &'static str {
        "lost"
    }

    fn twin(&self) -> Result<Self, AllocError> {
        Ok(Transfer::new(self.care))
    }

    fn run(
        &mut self,
        workload: &Amount,
        session: &mut Session<'_>,
    ) -> Result<Judgement, AllocError> {
        let cents = workload.cents;
        self.payer = cents;
        self.payee = 0;
        if let Answer::Go = session.hit(0)? {
            self.payer = 0;
            match session.hit(1)? {
                Answer::Go => self.payee = cents,
                Answer::Return(_) => self.payer = put_back(self.care, cents),
                Answer::Halt => {}
            }
        }
        Ok(judgement(cents, self.payer, self.payee))
    }

    ghost within = { λ care amount answers. asks-within care amount.cents answers };

    ghost halts = { λ care amount before after. asks-halts care amount.cents before after };

    ghost lawful = { Prim.search rules };
}
