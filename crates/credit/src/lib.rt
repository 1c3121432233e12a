// The credit of a delayed OKAY.
#![tactic(auto)]

ghost use Rattle.std.specs.Prelude.{◌≡◌};
ghost use Rattle.credit.specs.Credit.{credit_of, credit_fault_number};

use refusal::Numbered;

// What is wrong with it: refusals 5, 20 and 21 (docs/SCOPE.md, 6).
#[derive(Clone, Copy, Debug, PartialEq, Eq)]
pub enum CreditFault {
    // Under 4 bytes.
    Short,
    // Over 4 bytes.
    Long,
    // Below 0.
    Negative,
}

impl Numbered for CreditFault {
    ghost number = { credit_fault_number };

    fn number(self) -> u32 {
        match self {
            CreditFault::Short => 5,
            CreditFault::Long => 20,
            CreditFault::Negative => 21,
        }
    }
}

// The four bytes of an OKAY's payload, signed, and not below 0.
pub fn parse_ready_credit(payload: &[u8]) -> Result<i32, CreditFault>
    ensures { result ≡ credit_of payload.now }
{
    if payload.len() < 4 {
        return Err(CreditFault::Short);
    }
    if payload.len() > 4 {
        return Err(CreditFault::Long);
    }
    let credit = le::get(payload, 0);
    if credit < 0 {
        return Err(CreditFault::Negative);
    }
    Ok(credit)
}
