// A file that takes what is written as it comes.

use ldb_edge::{Failed, Files, Sink};

/// The end of a file that was created.
#[derive(Drop)]
pub struct FileSink<'a, 'b, F: Files> {
    pub files: &'a mut F,
    pub name: &'b str,
    ghost created: { ∥ F.created files.now name.now ∥₁ },
}

impl<F: Files> Sink for FileSink<'_, '_, F> {
    ghost use Rattle.std.proofs.Common.{◌≡◌, ◌∙◌, sym, ap, refl, subst, ℕ, List, Option, None};
    ghost use Rattle.ldb_edge.specs.Known.{FileMap};
    ghost use Rattle.ldb_top.specs.Output.{held_under, OthersKept};

    ghost taken = { λ s. held_under (F.held s.files.now) s.name.now };

    ghost faults = { λ s. F.write_faults s.files.now };

    ghost calls = { λ _. None };

    ghost leads = { λ a b. (b.files.ghost_name ≡ a.files.ghost_name) × (b.name ≡ a.name) × ((start : Option FileMap) → OthersKept a.name.now start (F.held a.files.now) → OthersKept a.name.now start (F.held b.files.now)) × ((other : List ℕ) → F.created a.files.now other → F.created b.files.now other) × (F.read_faults b.files.now ≡ F.read_faults a.files.now) };

    fn write(&mut self, piece: &[u8]) -> Result<usize, Failed> {
        match self.files.append(self.name, piece) {
            Ok(count) => Ok(count),
            Err(_) => Err(Failed),
        }
    }

    ghost stays = { λ s. (refl, refl, λ start kept. kept, λ other made. made, refl) };

    ghost goes_on = { λ a b c p q. (q.0 ∙ p.0, q.1 ∙ p.1, λ start kept. subst (λ n. OthersKept n.now start (F.held c.files.now)) p.1 (q.2 start (subst (λ n. OthersKept n.now start (F.held b.files.now)) (sym p.1) (p.2 start kept))), λ other made. q.3 other (p.3 other made), q.4 ∙ p.4) };
}
