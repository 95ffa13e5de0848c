// The three houses of the circle, and the days of their week.
use crate::houses::House;
use crate::patches::{OLD_TEXT, ORDER, RESERVE_ANYWHERE, WAITS_AT_THE_DESK, WE_TELEPHONE};
use crate::sheets::{print_comparison, print_page};
use lending::shelf::Shelf;
use page::sheet::Sheet;
use std::io;

#[derive(Drop)]
pub struct Circle<'m> {
    rt: &'m HostRuntime,
    ash: House<'m>,
    bell: House<'m>,
    church: House<'m>,
}

impl<'m> Circle<'m> {
    // Three houses, each with a volume on a shelf of its own.
    pub(crate) fn new(
        rt: &'m HostRuntime,
        ash: &'m mut Shelf,
        bell: &'m mut Shelf,
        church: &'m mut Shelf,
    ) -> Circle<'m> {
        Circle {
            rt,
            ash: House::new(rt, "Ash Lane", ash),
            bell: House::new(rt, "Bell Street", bell),
            church: House::new(rt, "Church Hill", church),
        }
    }

    // What a reader has to know.
    pub(crate) fn explain(&self) -> io::Result<()> {
        println!(self.rt;
            "A WEEK OF THE LOAN TEXT\n\
            \n\
            Three small libraries share one loan text: Ash Lane, Bell Street and Church Hill.\n\
            Each house keeps it in a volume of its own, and a van carries patches between them.\n\
            \n\
            A patch is a small change to the text. Patch 12.1 is the first patch of branch 12,\n\
            and its lines are named 12.1:0, 12.1:1 and so on. Branch 1 wrote the old text;\n\
            branch 12 is Ash Lane, branch 20 is Bell Street and branch 30 is Church Hill.\n\
            In a patch, an entry with 'a' adds a line to the text, and an entry with 'k' is\n\
            a link: the line that it names first comes before the line that it names next.\n\
            \n\
            A house answers 'taken', 'taken back' or 'refused'. A refusal is told with its\n\
            number, the line of the patch where it was met, if there is one, and the reason.\n\
            It changes nothing.\n\
            \n\
            A page shows the text as it stands in one house. A line that has its place is a\n\
            block of its own, of kind 'plain'. Lines that nobody has put in one order share\n\
            a block of kind 'fork', where each has a knot number of its own."
        )
    }

    pub(crate) fn before(&mut self) -> io::Result<()> {
        println!(self.rt; "\nBEFORE THE WEEK\n\nThe old loan text is patch 1.1:")?;
        OLD_TEXT.print(self.rt)?;
        println!(self.rt; "Every house gets it.")?;
        self.ash.take(&OLD_TEXT)?;
        self.bell.take(&OLD_TEXT)?;
        self.church.take(&OLD_TEXT)?;
        print_page(self.rt, &self.ash.page()?)
    }

    pub(crate) fn monday(&mut self) -> io::Result<()> {
        println!(self.rt;
            "\nMONDAY\n\n\
            Ash Lane wants a line about reserved books between lines 1.1:2 and 1.1:3.\n\
            It writes patch 12.1:"
        )?;
        WAITS_AT_THE_DESK.print(self.rt)?;
        self.ash.take(&WAITS_AT_THE_DESK)?;
        print_page(self.rt, &self.ash.page()?)
    }

    pub(crate) fn tuesday(&mut self) -> io::Result<()> {
        println!(self.rt;
            "\nTUESDAY\n\n\
            Bell Street has not heard of Ash Lane's line. It wants another one in the same\n\
            place, and writes patch 20.1:"
        )?;
        RESERVE_ANYWHERE.print(self.rt)?;
        self.bell.take(&RESERVE_ANYWHERE)?;
        println!(self.rt; "In the evening it adds a line after that one, by patch 20.2:")?;
        WE_TELEPHONE.print(self.rt)?;
        self.bell.take(&WE_TELEPHONE)?;
        print_page(self.rt, &self.bell.page()?)
    }

    // The page at the end of the day is kept until Friday.
    pub(crate) fn wednesday(&mut self) -> io::Result<Sheet> {
        println!(self.rt;
            "\nWEDNESDAY\n\n\
            The van brings a pouch with three patches to Church Hill. Patch 20.2 lies on top."
        )?;
        self.church.take(&WE_TELEPHONE)?;
        println!(self.rt; "It has to wait. The other two come out of the pouch.")?;
        self.church.take(&RESERVE_ANYWHERE)?;
        self.church.take(&WAITS_AT_THE_DESK)?;
        println!(self.rt; "Now patch 20.2 is tried again.")?;
        self.church.take(&WE_TELEPHONE)?;
        let sheet = self.church.page()?;
        print_page(self.rt, &sheet)?;
        println!(self.rt;
            "Does Ash Lane's line come before Bell Street's two lines or after them? Nobody has\n\
            said, and the page does not choose."
        )?;
        Ok(sheet)
    }

    pub(crate) fn thursday(&mut self) -> io::Result<()> {
        println!(self.rt;
            "\nTHURSDAY\n\n\
            Church Hill says: first a book is reserved, then it comes, and then it waits at\n\
            the desk. It writes patch 30.1, which is one link:"
        )?;
        ORDER.print(self.rt)?;
        self.church.take(&ORDER)?;
        print_page(self.rt, &self.church.page()?)
    }

    pub(crate) fn friday(&mut self, wednesday: &Sheet) -> io::Result<()> {
        println!(self.rt;
            "\nFRIDAY\n\n\
            Bell Street is no longer sure that it can telephone everybody. Church Hill wants to\n\
            do without that line."
        )?;
        self.church.take_back(&WE_TELEPHONE)?;
        println!(self.rt; "The link is in the way, so it goes first.")?;
        self.church.take_back(&ORDER)?;
        let sheet = self.church.page()?;
        print_page(self.rt, &sheet)?;
        print_comparison(
            self.rt,
            "Friday's page beside Wednesday's",
            &sheet,
            wednesday,
        )?;
        println!(self.rt;
            "Then Bell Street sends word that it can telephone after all, and the line stays."
        )
    }

    pub(crate) fn saturday(&mut self) -> io::Result<()> {
        println!(self.rt;
            "\nSATURDAY\n\n\
            All three agree to Church Hill's order, and the van brings every house what it lacks.\n\
            Ash Lane's own patch has got into Ash Lane's pouch by mistake."
        )?;
        self.ash.take(&WAITS_AT_THE_DESK)?;
        self.ash.take(&RESERVE_ANYWHERE)?;
        self.ash.take(&WE_TELEPHONE)?;
        self.ash.take(&ORDER)?;
        self.bell.take(&WAITS_AT_THE_DESK)?;
        self.bell.take(&ORDER)?;
        self.church.take(&ORDER)?;
        println!(self.rt;
            "Every house now has the same patches, and each took them in an order of its own:\n    \
            Ash Lane     1.1, 12.1, 20.1, 20.2, 30.1\n    \
            Bell Street  1.1, 20.1, 20.2, 12.1, 30.1\n    \
            Church Hill  1.1, 20.1, 12.1, 20.2, 30.1 (taken back on Friday and taken again)"
        )?;
        self.count_up()
    }

    // The pages of the three houses against each other.
    fn count_up(&self) -> io::Result<()> {
        let at_ash = self.ash.page()?;
        let at_bell = self.bell.page()?;
        let at_church = self.church.page()?;
        print_comparison(
            self.rt,
            "Ash Lane's page beside Church Hill's",
            &at_ash,
            &at_church,
        )?;
        print_comparison(
            self.rt,
            "Bell Street's page beside Church Hill's",
            &at_bell,
            &at_church,
        )?;
        println!(self.rt; "The loan text at the end of the week:")?;
        print_page(self.rt, &at_church)
    }
}
