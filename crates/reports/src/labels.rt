// Labels of places, upward: how many there are, and whether one is the label asked for.
ghost use Rattle.std.specs.Prelude.{◌≡◌, ◌<◌, ◌≤◌, ℕ, map, length};
ghost use Rattle.lists.specs.Lists.{upto, overlay};
ghost use Rattle.reports.specs.Labels.{label_end, labels_in, is_label};

// Whether k is the label l. It is l that is converted, once for all labels of a loop that compares them with it.
#[tactic(auto, using(crate::proofs::Upward::same_label))]
pub fn is_label(k: i32, l: usize) -> bool
    ensures { result ≡ is_label l k }
{
    i32::try_from(l) == Ok(k)
}

// One above a label; 0 for -1.
#[tactic(auto, using(crate::proofs::Upward::one_above, crate::proofs::Upward::no_end))]
fn label_end(k: i32) -> usize
    ensures { result ≡ label_end k }
{
    match usize::try_from(k) {
        Ok(l) => l + 1,
        Err(_) => 0,
    }
}

// How many labels there are: one above the highest.
// Kept as it is: beside `cluster::labels::label_count`, whose labels are u32 and have no -1. One function for both would be this fold over any
// type of label, and each call would hand over a closure for what is one above a label: no plainer than two folds.
#[tactic(auto, using(crate::proofs::Upward::labels_folded))]
pub fn label_count(labels: &[i32]) -> usize
    ensures { result ≡ labels_in labels.now }
{
    labels.iter().fold(0, |m, &k| m.max(label_end(k)))
}

// f of each label below `count`, in order, to the front of `out`.
#[tactic(auto, using(crate::proofs::Copies::each_here, crate::proofs::Copies::each_on, crate::proofs::Copies::each_end))]
pub fn write_column<T: Copy, F: Fn(usize) -> T>(f: F, count: usize, out: &mut [T])
    requires callable { F.IsAlwaysCallable f }
    requires room { count ≤ length out.old }
    ensures { (h : ℕ → T) → ((l : ℕ) (v : T) → l < count → F.post f l v → v ≡ h l) → out.new ≡ overlay (map h (upto count)) out.old }
{
    for (l, x) in out[..count].iter_mut().enumerate() {
        *x = f(l);
    }
}
