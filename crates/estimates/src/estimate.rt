// What every estimate has.
ghost use Rattle.std.specs.Prelude.{◌≡◌};
ghost use Rattle.rules.specs.Rules.{Rule, Lawful, Silent};

// An estimate: a fixed rule that gives a number for a prefix. Whoever supplies one shows its rule, and that the rule is lawful: asking gives just its
// number, each time, and alters nothing.
pub trait Estimate {
    // The number for each prefix, from m, r and the weights.
    ghost rule: { Self → Rule };

    // The number of the rule. The four are asked as they are, also where they fit nothing, and whoever supplies an estimate writes this signature.
    fn ask(&self, m: u32, r: u32, weights: &[i8], prefix: &[u8]) -> u32
        ensures { result ≡ rule self.now m r weights.now prefix.now };

    // No word whose message begins with the prefix costs less.
    ghost lawful: { (estimate : Self) → Lawful (rule estimate) };

    // The number is 0 where m, r, the weights or the prefix are not such as can be asked.
    ghost silent: { (estimate : Self) → Silent (rule estimate) };
}
