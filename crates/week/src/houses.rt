// A house of the circle, which keeps the loan text in a volume of its own.
use crate::patches::LoanPatch;
use crate::words::Told;
use kinds::branch::BranchNumber;
use lending::shelf::{LoanVolume, Shelf};
use page::page::LONGEST_PAGE;
use page::sheet::Sheet;
use patch::refusals::Refusal;
use std::io;

#[derive(Drop)]
pub struct House<'m> {
    rt: &'m HostRuntime,
    name: &'static str,
    volume: LoanVolume<'m>,
}

impl<'m> House<'m> {
    pub(crate) fn new(rt: &'m HostRuntime, name: &'static str, shelf: &'m mut Shelf) -> House<'m> {
        House {
            rt,
            name,
            volume: shelf.volume(),
        }
    }

    // Hands the patch in, and says the answer.
    pub(crate) fn take(&mut self, patch: &LoanPatch) -> io::Result<()> {
        print!(self.rt; "At {}, patch {} is handed in: ", self.name, patch.id)?;
        let answer = self.volume.apply(patch.id.as_bytes(), patch.text);
        self.say(answer, "taken")
    }

    // Asks for the patch to be taken back, and says the answer.
    pub(crate) fn take_back(&mut self, patch: &LoanPatch) -> io::Result<()> {
        print!(self.rt;
            "At {}, patch {} is to be taken back: ",
            self.name, patch.id
        )?;
        let answer = self.volume.unapply(patch.id.as_bytes());
        self.say(answer, "taken back")
    }

    fn say(&self, answer: Result<(), Refusal<BranchNumber>>, granted: &str) -> io::Result<()> {
        match answer {
            Ok(()) => println!(self.rt; "{granted}."),
            Err(refusal) => println!(self.rt; "{}.", Told(&refusal)),
        }
    }

    // Asks for the page, and says the answer.
    pub(crate) fn page(&self) -> io::Result<Sheet> {
        print!(self.rt; "At {}, the page is asked for: ", self.name)?;
        let mut memory = [0; LONGEST_PAGE];
        match self.volume.page(&mut memory) {
            Ok(len) => {
                println!(self.rt; "it has {len} bytes.")?;
                Ok(Sheet::from_slice(&memory[..len]))
            }
            Err(refusal) => {
                println!(self.rt; "{}.", Told(&refusal))?;
                Ok(Sheet::new())
            }
        }
    }
}
