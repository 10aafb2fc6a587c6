//! What certificates rest on. No clause speaks of it: a claim that is wrongly taken to stand is
//! asked again by the last round.

use lang_monitor::Candidate;
use logic_cert::{Cert, Combine};
use std::alloc::{AllocError, Global};

/// Of so many candidates a ground says which they are; one of more is taken to rest on all.
const MOST_USED: usize = 64;

/// What the last certificate of a claim rests on.
#[derive(Debug, Drop)]
pub(crate) struct Ground {
    /// The candidates that it used, one more than [`MOST_USED`] where they are more.
    used: Vec<Candidate>,
    /// How many candidates had been dropped when it was found, or last looked at.
    looked: usize,
}

impl Ground {
    /// Whether the certificate may have used the candidate.
    fn rests_on(&self, candidate: &Candidate) -> bool {
        self.used.len() > MOST_USED || self.used.contains(candidate)
    }
}

/// Notes the candidate of this number, where it is one. The first literals of a negated query are
/// its hypotheses, one of each candidate that is kept.
fn note_number(
    used: &mut Vec<Candidate>,
    kept: &[Candidate],
    number: u32,
) -> Result<(), AllocError> {
    match kept.get(number as usize) {
        None => {}
        Some(candidate) => {
            if used.len() <= MOST_USED && !used.contains(candidate) {
                used.push(*candidate)?;
            }
        }
    }
    Ok(())
}

/// Notes the candidates of which sums are made.
fn note_sums(
    used: &mut Vec<Candidate>,
    kept: &[Candidate],
    sums: &[Combine],
) -> Result<(), AllocError> {
    for sum in sums {
        note_number(used, kept, sum.left)?;
        note_number(used, kept, sum.right)?;
    }
    Ok(())
}

/// Notes the candidates that the certificate uses.
#[cycle(note_used)]
fn note_used(used: &mut Vec<Candidate>, kept: &[Candidate], cert: &Cert) -> Result<(), AllocError> {
    match cert {
        Cert::Split(certs) => Ok(note_used_by_each(used, kept, certs.items())?),
        Cert::Clash { left, right } => {
            note_number(used, kept, *left)?;
            note_number(used, kept, *right)?;
            Ok(())
        }
        Cert::Chain(sums) => Ok(note_sums(used, kept, sums.items())?),
        Cert::Cases { below, above, .. } => {
            note_used(used, kept, below.get())?;
            note_used(used, kept, above.get())
        }
    }
}

#[cycle(note_used)]
fn note_used_by_each(
    used: &mut Vec<Candidate>,
    kept: &[Candidate],
    certs: &[Cert],
) -> Result<(), AllocError> {
    for cert in certs {
        note_used(used, kept, cert)?;
    }
    Ok(())
}

/// Whether the claim at the block has a ground all of which is left. The last dropped stand at the
/// end.
pub(crate) fn has_ground(grounds: &mut [Ground], block: u32, dropped: &[Candidate]) -> bool {
    match grounds.get_mut(block as usize) {
        None => false,
        Some(ground) => {
            let is_lost = dropped
                .iter()
                .skip(ground.looked)
                .any(|one| ground.rests_on(one));
            if !is_lost {
                ground.looked = dropped.len();
            }
            !is_lost
        }
    }
}

fn note(grounds: &mut Vec<Ground>, block: u32, ground: Ground) -> Result<(), AllocError> {
    match grounds.get_mut(block as usize) {
        None => grounds.push(ground)?,
        Some(old) => *old = ground,
    }
    Ok(())
}

/// Notes what the claim at the block rests on: the candidates that its certificate uses.
pub(crate) fn note_ground(
    alloc: Global,
    grounds: &mut Vec<Ground>,
    block: u32,
    cert: &Cert,
    kept: &[Candidate],
    dropped: &[Candidate],
) -> Result<(), AllocError> {
    let mut used = Vec::new(alloc);
    note_used(&mut used, kept, cert)?;
    let looked = dropped.len();
    note(grounds, block, Ground { used, looked })
}

/// Notes that the claim at the block rests on no other candidate.
pub(crate) fn note_alone(
    alloc: Global,
    grounds: &mut Vec<Ground>,
    block: u32,
) -> Result<(), AllocError> {
    let used = Vec::new(alloc);
    note(grounds, block, Ground { used, looked: 0 })
}
