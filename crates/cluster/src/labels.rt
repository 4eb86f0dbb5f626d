// Labels of places: those of the nodes, and the singles' behind them.
ghost use Rattle.std.specs.Prelude.{◌≡◌, ◌≤◌, pos, length, get_or};
ghost use Rattle.cluster.specs.Cluster.{label_count, labels_from, none_labelled};

// How many labels the nodes have.
#[tactic(auto, using(crate::proofs::LabelCount::label_count_fold))]
fn label_count(groups: &[u32]) -> usize
    ensures { result ≡ label_count groups.now }
{
    groups.iter().fold(0, |m, &l| m.max(l as usize + 1))
}

// The label of node u: its group's; 0 where `groups` ends before it.
// Kept as it is: `groups` by the index of `nodes`. Nothing is asked of their lengths, and a `zip` would end with the shorter.
#[tactic(auto, using(crate::proofs::LabelCount::label_le))]
fn node_label(groups: &[u32], u: usize) -> i32
    requires { label_count groups.now ≤ 512 }
    ensures { result ≡ pos (get_or groups.now u 0) }
{
    groups.get(u).copied().unwrap_or(0) as i32
}

// Writes the label of each place: those of `nodes`, in place order, have the labels `groups`; the other places are the singles.
#[tactic(auto, using(crate::proofs::Walk::walk_start, crate::proofs::Walk::walk_end))]
pub fn label_places(nodes: &[u32], groups: &[u32], single: bool, labels: &mut [i32])
    requires { (length labels.old ≤ 512) × (label_count groups.now ≤ 512) }
    ensures { labels.new ≡ labels_from single nodes.now groups.now 0 0 (length labels.old) }
{
    let count = label_count(groups);
    let mut nodes = nodes.iter().enumerate().peekable();
    let mut singles = count..count + labels.len();
    for (i, label) in labels.iter_mut().enumerate() {
        *label = match nodes.next_if(|&(_, &node)| node as usize == i) {
            Some((u, _)) => node_label(groups, u),
            None if single => singles.next().map_or(-1, |l| l as i32),
            None => -1,
        };
    }
}

// Whether all labels are -1.
pub fn none_labelled(labels: &[i32]) -> bool
    ensures { result ≡ none_labelled labels.now }
{
    labels.iter().all(|&l| l < 0)
}
