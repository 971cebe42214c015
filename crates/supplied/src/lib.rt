// The supplied set of leaf kinds: single, twin and mixed over a residue group, then the same over a circle group.
#![tactic(auto)]

ghost use Rattle.std.specs.Prelude.{◌≡◌, ◌∷◌, IfOk, ◌==◌, slice_index_or};
ghost use Rattle.refusals.specs.Checks.{told, unless};
ghost use Rattle.refusals.specs.declared.Refusal.TheVariants.{OrdersDiffer};
ghost use Rattle.kinds.specs.Kinds.{no_kind};
ghost use Rattle.kinds.specs.Numbered.{set_of};
ghost use Rattle.supplied.specs.Supplied.{six, meant};

use groups::{CircleGroup, Group, ResidueGroup};
use kinds::{Image, Join, Key, LeafKinds, Mixed, OneKind, Single, Twin, key_image};
use refusals::Refusal;

// The three kinds over one group.
pub type Three<G> = Join<Join<OneKind<G, Single>, OneKind<G, Twin>>, OneKind<G, Mixed>>;

pub type Supplied = Join<Three<ResidueGroup>, Three<CircleGroup>>;

fn three<G: Group + Copy>(group: G) -> Three<G>
    ensures { (result.left.left.group ≡ group) × (result.left.right.group ≡ group) × (result.right.group ≡ group) }
{
    Join {
        left: Join {
            left: OneKind {
                group,
                form: Single,
            },
            right: OneKind { group, form: Twin },
        },
        right: OneKind { group, form: Mixed },
    }
}

// The set of the six kinds; refused where the two orders differ.
pub fn supplied(residues: ResidueGroup, circle: CircleGroup) -> Result<Supplied, Refusal>
    ensures refuses { told result ≡ unless (residues.q == circle.q) OrdersDiffer }
    ensures makes { IfOk result (λ s. meant s ≡ set_of residues.q (six residues circle)) }
{
    Join::new(three(residues), three(circle))
}

// The interface at this type answers by `meant`, whatever the sides of the join hold.
pub fn supplied_width(set: &Supplied, kind: u8) -> u8
    ensures { result ≡ ((meant set.now).kind kind).width }
{
    set.width(kind)
}

pub fn is_supplied_image(set: &Supplied, kind: u8, image: &Image) -> bool
    ensures { result ≡ ((meant set.now).kind kind).is_image image.now }
{
    set.is_image(kind, image)
}

// The image of any pair of scalars under one of the six kinds, made and asked at once; four zeros where it is no key.
pub fn image_of_six(
    residues: ResidueGroup,
    circle: CircleGroup,
    kind: u8,
    key: Key,
) -> Result<Image, Refusal>
    ensures refuses { told result ≡ unless (residues.q == circle.q) OrdersDiffer }
    ensures makes { IfOk result (λ i. i ≡ (slice_index_or (no_kind ∷ six residues circle) kind no_kind).image key) }
{
    let set = supplied(residues, circle)?;
    Ok(key_image(&set, kind, key))
}
