// What all tries of a save came to.
use crate::counting::Tally;
use crate::parts::{Choir, Voice};
use crate::pulling::Landed;
use std::alloc::{AllocError, Global};

#[derive(Drop)]
pub struct Sums {
    pub pulls: u32,
    pub landings: u32,
    pub calls: usize,
    pub parts: Vec<Tally>,
    // How often the alto part showed leaves of both editions at once.
    pub mixed: u32,
    // The landing with the most refused leaves; of these, one with the most leaves of the rarer edition.
    pub worst: Option<Worst>,
}

#[derive(Clone, Copy)]
pub struct Worst {
    pub landed: Landed,
    pub alto: Tally,
}

impl Sums {
    pub fn new(heap: Global, choir: &Choir) -> Result<Sums, AllocError> {
        Ok(Sums {
            pulls: 0,
            landings: 0,
            calls: 0,
            parts: vec![in heap; Tally::default(); choir.parts.len()]?,
            mixed: 0,
            worst: None,
        })
    }

    // Takes in what was seen of each part after one landing.
    pub fn take(&mut self, choir: &Choir, landed: &Landed, seen: &[Tally]) {
        self.landings = self.landings.saturating_add(1);
        for (sum, tally) in self.parts.iter_mut().zip(seen) {
            sum.add(tally);
        }
        for (part, tally) in choir.parts.iter().zip(seen) {
            if part.voice == Voice::Alto {
                self.take_alto(landed, tally);
            }
        }
    }

    fn take_alto(&mut self, landed: &Landed, alto: &Tally) {
        if alto.is_mixed() {
            self.mixed = self.mixed.saturating_add(1);
        }
        let is_worse = match &self.worst {
            Some(worst) => badness(alto) > badness(&worst.alto),
            None => true,
        };
        if is_worse {
            self.worst = Some(Worst {
                landed: *landed,
                alto: *alto,
            });
        }
    }
}

fn badness(alto: &Tally) -> (u32, u32) {
    (alto.refused, alto.old.min(alto.new))
}
