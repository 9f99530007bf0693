// Sending what is kept.
ghost use Rattle.std.specs.Prelude.{◌≡◌, ◌<◌, ◌++◌, ◌∷◌, [], OnOk, vec_len, MatchResult};
ghost use Rattle.node_worker.specs.Posts.{SentBut};

use crate::post::Post;
use node_link::{Back, Sender};
use std::collections::VecDeque;
use std::sync::Wait;
use task_events::Stop;

// Sends one letter by the sender that leads to its inbox, or hands it back.
fn send_at<L: Drop, R: Wait>(
    rt: &R,
    senders: &mut Vec<Sender<L>>,
    post: Post<L>,
) -> Result<(), Post<L>>
    requires { post.to < vec_len senders.old }
    ensures { MatchResult result (λ _. SentBut senders.old.items (post ∷ []) senders.new.items []) (λ back. (back ≡ post) × SentBut senders.old.items (post ∷ []) senders.new.items (post ∷ [])) }
{
    let Post { to, letter } = post;
    let sender = &mut senders[to as usize];
    match sender.send(rt, letter) {
        Ok(()) => Ok(()),
        Err(Back(letter)) => Err(Post { to, letter }),
    }
}

// The same. A letter for an inbox that is not there is passed over.
pub(crate) fn send_to<L: Drop, R: Wait>(
    rt: &R,
    senders: &mut Vec<Sender<L>>,
    post: Post<L>,
) -> Result<(), Post<L>>
    ensures { MatchResult result (λ _. SentBut senders.old.items (post ∷ []) senders.new.items []) (λ back. (back ≡ post) × SentBut senders.old.items (post ∷ []) senders.new.items (post ∷ [])) }
{
    if post.to as usize >= senders.len() {
        return Ok(());
    }
    send_at(rt, senders, post)
}

// Sends what is kept, in order, up to the first letter that comes back, which is kept first again.
pub(crate) fn flush<L: Drop, R: Wait>(
    rt: &R,
    senders: &mut Vec<Sender<L>>,
    kept: &mut VecDeque<Post<L>>,
)
    ensures { SentBut senders.old.items kept.old.items senders.new.items kept.new.items }
{
    while let Some(post) = kept.pop_front() {
        if let Err(back) = send_to(rt, senders, post) {
            kept.push_front_reserved(back);
            return;
        }
    }
}

// Keeps these behind the others.
pub(crate) fn keep<L: Drop>(kept: &mut VecDeque<Post<L>>, posts: Vec<Post<L>>) -> Result<(), Stop>
    ensures { OnOk result (kept.new.items ≡ kept.old.items ++ posts.items) }
{
    for post in posts {
        if kept.push_back(post).is_err() {
            return Err(Stop::Memory);
        }
    }
    Ok(())
}
