// The numbers of block 0 of an image, and the test of its settings.
ghost use Rattle.std.specs.Prelude.{◌≡◌};
ghost use Rattle.layout.specs.Validity.{settings_ranged};
ghost use Rattle.validity.specs.Settled.{settings_valid};

use station::open::Settings;

// N, c, r, clock, next ticket, number held and W.
#[derive(Clone, Copy)]
pub struct Header {
    pub settings: Settings,
    pub clock: u32,
    pub next: u32,
    pub held: u32,
    pub site: u32,
}

impl Header {
    // N, c, r, clock, next ticket and W in range.
    #[tactic(auto, unfolding(layout::specs::Validity::settings_ranged, layout::specs::Validity::between))]
    fn settings_ranged(&self) -> bool
        ensures { result ≡ settings_ranged self.now.settings.limit self.now.settings.percent self.now.settings.tail self.now.clock self.now.next self.now.site }
    {
        (1..=60).contains(&self.settings.limit)
            && self.settings.percent <= 100
            && self.settings.tail <= 5
            && self.clock <= 1000000
            && (1..=65536).contains(&self.next)
            && (1..=720).contains(&self.site)
    }

    // All of these, and "meet neither refusal 3": D is not 0.
    #[tactic(auto, using(crate::proofs::Ranging::product_fits), unfolding(crate::specs::Settled::settings_valid))]
    pub fn settings_valid(&self) -> bool
        ensures { result ≡ settings_valid self.now.settings.limit self.now.settings.percent self.now.settings.tail self.now.clock self.now.next self.now.site }
    {
        self.settings_ranged() && 1 <= self.settings.bound()
    }
}
