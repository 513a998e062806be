// The theorems of `embed`, each held by the gate as the contract of a function with an empty body; specs/Promises.antt has the statements.
ghost use Rattle.embed.specs.Promises.{TableIsRows, WriteEmbeds};

// "An assignment meets a table when it gives these atoms no forbidden pattern."
#[tactic(auto, using(crate::proofs::Embedded::table_is_rows))]
pub fn table_is_rows()
    ensures { TableIsRows }
{}

// "bit i of a pattern belongs to the i-th atom named."
#[tactic(auto, using(crate::proofs::Named::write_embeds))]
pub fn write_embeds()
    ensures { WriteEmbeds }
{}
