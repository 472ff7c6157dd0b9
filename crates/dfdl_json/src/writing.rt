// The text of an infoset, written from its nodes.
ghost use Rattle.std.specs.Prelude.{◌≡◌, ◌<◌, ◌≤◌, ℕ, ◌+◌, List, [], ◌∷◌, true, length, drop, slice_index_or, IfOk, OnOk, MatchOption};
ghost use Rattle.json.specs.Token.{begin_array, key};
ghost use Rattle.serde_json.specs.Data.{array, item, no_items, object};
ghost use Rattle.dfdl_region.specs.Texts.{HaveTexts};
ghost use Rattle.dfdl_json.specs.Adding.{Adds, data_tokens};
ghost use Rattle.dfdl_json.specs.Chains.{reach};
ghost use Rattle.dfdl_json.specs.Lines.{members_of};
ghost use Rattle.dfdl_json.specs.Sorted.{behind as behind_in, run, value_at};
ghost use Rattle.dfdl_json.specs.Ready.{AreMembers, IsFirst, IsReady, Starts, elements, tokens_of_items};

use crate::chains::{Chains, Link};
use crate::children::name_of;
use crate::ranks::Ranks;
use crate::sorted::sorted_members;
use crate::values::{has_elements, write_simple};
use dfdl_region::Node;
use dfdl_terms::{Items, Terms};
use json::Writer;
use std::alloc::{AllocError, Global};

// The elements of an infoset, with the members of each in the order of their names.
#[derive(Drop)]
pub(crate) struct Infoset<'a> {
    terms: &'a Terms,
    nodes: &'a [Node],
    text: &'a [u8],
    items: Items,
    ranks: Ranks,
    members: Chains,
}

impl<'a> Infoset<'a> {
    // That of these nodes, with the bytes of their texts.
    pub(crate) fn of(
        alloc: Global,
        terms: &'a Terms,
        nodes: &'a [Node],
        text: &'a [u8],
    ) -> Result<Infoset<'a>, AllocError>
        requires { HaveTexts nodes.now text.now }
        ensures ready { IfOk result IsReady }
        ensures terms { IfOk result (λ infoset. infoset.terms.now ≡ terms.now) }
        ensures nodes { IfOk result (λ infoset. infoset.nodes.now ≡ nodes.now) }
        ensures text { IfOk result (λ infoset. infoset.text.now ≡ text.now) }
    {
        let ranks = Ranks::of(alloc, terms)?;
        let members = sorted_members(alloc, terms, &ranks, nodes)?;
        Ok(Infoset {
            terms,
            nodes,
            text,
            items: Items::of(alloc, terms)?,
            ranks,
            members,
        })
    }

    // Writes the value of the element of this number.
    #[cycle(writing)]
    pub(crate) fn write_element(
        &self,
        alloc: Global,
        out: &mut Writer,
        number: u32,
    ) -> Result<(), AllocError>
        requires ready { IsReady self.now }
        requires here { number < length self.now.nodes.now }
        ensures { OnOk result (Adds out.old out.new (data_tokens ((elements self.now).own number))) }
    {
        let node = self.node(number);
        if has_elements(node.content) {
            return self.write_object(alloc, out, number);
        }
        write_simple(alloc, out, self.text, node.content)
    }

    // Writes the object of the element of this number.
    #[cycle(writing)]
    fn write_object(&self, alloc: Global, out: &mut Writer, number: u32) -> Result<(), AllocError>
        requires ready { IsReady self.now }
        requires here { number < length self.now.nodes.now }
        ensures { OnOk result (Adds out.old out.new (data_tokens (object
            (members_of self.now.terms.now self.now.text.now (number + 1) (drop (number + 1) self.now.nodes.now) number)))) }
    {
        out.begin_object()?;
        let mut at = self.members.first(number as usize);
        while let Some(link) = self.link_at(at) {
            at = self.write_member(alloc, out, number, link)?;
        }
        out.end_object()
    }

    // Writes the member of an element whose first node is that of a link, and says where the next one's stands.
    #[cycle(writing)]
    fn write_member(
        &self,
        alloc: Global,
        out: &mut Writer,
        number: u32,
        link: Link,
    ) -> Result<Option<u32>, AllocError>
        requires ready { IsReady self.now }
        requires here { number < length self.now.nodes.now }
        requires starts { (is : List ℕ) × Starts self.now number link is }
        ensures { IfOk result (λ next. (is : List ℕ) → Starts self.now number link is
            → Adds out.old out.new (key ((elements self.now).name link.node) ∷ data_tokens (value_at (elements self.now) link.node is))
            × AreMembers self.now number ((elements self.now).rank link.node) next
            (behind_in (elements self.now) ((elements self.now).rank link.node) is)
            × (reach next ≤ reach link.next)) }
    {
        let node = self.node(link.node);
        out.key(name_of(self.terms, node.element))?;
        let next = self.write_value(alloc, out, number, link)?;
        let rank = self.rank_of(link.node);
        Ok(self.behind(rank, next))
    }

    // Writes what a member has whose first node is that of a link, and says where the next link stands.
    #[cycle(writing)]
    fn write_value(
        &self,
        alloc: Global,
        out: &mut Writer,
        number: u32,
        link: Link,
    ) -> Result<Option<u32>, AllocError>
        requires ready { IsReady self.now }
        requires here { number < length self.now.nodes.now }
        requires starts { (is : List ℕ) × Starts self.now number link is }
        ensures { IfOk result (λ next. (is : List ℕ) → Starts self.now number link is
            → Adds out.old out.new (data_tokens (value_at (elements self.now) link.node is)) × (rest : List ℕ)
            × AreMembers self.now number ((elements self.now).rank link.node) next rest
            × (behind_in (elements self.now) ((elements self.now).rank link.node) rest
            ≡ behind_in (elements self.now) ((elements self.now).rank link.node) is) × (reach next ≤ reach link.next)) }
    {
        let node = self.node(link.node);
        if self.items.has(node.element) {
            return self.write_array(alloc, out, number, link);
        }
        self.write_element(alloc, out, link.node)?;
        Ok(link.next)
    }

    // Writes the array of a member whose first item is that of a link, and says where the next link stands.
    #[cycle(writing)]
    fn write_array(
        &self,
        alloc: Global,
        out: &mut Writer,
        number: u32,
        link: Link,
    ) -> Result<Option<u32>, AllocError>
        requires ready { IsReady self.now }
        requires here { number < length self.now.nodes.now }
        requires starts { (is : List ℕ) × Starts self.now number link is }
        ensures { IfOk result (λ next. (is : List ℕ) → Starts self.now number link is
            → Adds out.old out.new (data_tokens (array (item ((elements self.now).own link.node)
            (run (elements self.now) ((elements self.now).rank link.node) is)))) × (rest : List ℕ)
            × AreMembers self.now number ((elements self.now).rank link.node) next rest
            × (behind_in (elements self.now) ((elements self.now).rank link.node) rest
            ≡ behind_in (elements self.now) ((elements self.now).rank link.node) is) × (reach next ≤ reach link.next)) }
    {
        out.begin_array()?;
        self.write_element(alloc, out, link.node)?;
        let rank = self.rank_of(link.node);
        self.write_items(alloc, out, number, rank, link.next)
    }

    // Writes the items that an array goes on with and its end, and says where the next link stands.
    #[cycle(writing)]
    fn write_items(
        &self,
        alloc: Global,
        out: &mut Writer,
        number: u32,
        rank: usize,
        next: Option<u32>,
    ) -> Result<Option<u32>, AllocError>
        requires ready { IsReady self.now }
        requires here { number < length self.now.nodes.now }
        requires members { (is : List ℕ) × AreMembers self.now number rank next is }
        ensures { IfOk result (λ after. (is : List ℕ) → AreMembers self.now number rank next is
            → Adds out.old out.new (tokens_of_items (run (elements self.now) rank is)) × (rest : List ℕ)
            × AreMembers self.now number rank after rest
            × (behind_in (elements self.now) rank rest ≡ behind_in (elements self.now) rank is) × (reach after ≤ reach next)) }
    {
        let mut at = next;
        while let Some(link) = self.next_item(rank, at) {
            self.write_element(alloc, out, link.node)?;
            at = link.next;
        }
        out.end_array()?;
        Ok(at)
    }

    // Where the first link stands whose node's name hasn't this rank.
    fn behind(&self, rank: usize, next: Option<u32>) -> Option<u32>
        requires { (number r : ℕ) × (is : List ℕ) × AreMembers self.now number r next is }
        ensures { (number : ℕ) (is : List ℕ) → AreMembers self.now number rank next is
            → AreMembers self.now number rank result (behind_in (elements self.now) rank is) × (reach result ≤ reach next) }
    {
        let mut at = next;
        while let Some(link) = self.next_named(rank, at) {
            at = link.next;
        }
        at
    }

    // The link that stands there, if its node is an item whose name has this rank.
    fn next_item(&self, rank: usize, at: Option<u32>) -> Option<Link>
        requires ready { IsReady self.now }
        requires members { (number r : ℕ) × (is : List ℕ) × AreMembers self.now number r at is }
        ensures { (number r : ℕ) (is : List ℕ) → AreMembers self.now number r at is
            → MatchOption result (run (elements self.now) rank is ≡ no_items) (λ link. IsFirst self.now number at is link
            × ((elements self.now).rank link.node ≡ rank) × ((elements self.now).is_item link.node ≡ true)) }
    {
        let link = self.next_named(rank, at)?;
        let node = self.node(link.node);
        if self.items.has(node.element) {
            Some(link)
        } else {
            None
        }
    }

    // The link that stands there, if its node's name has this rank.
    fn next_named(&self, rank: usize, at: Option<u32>) -> Option<Link>
        requires { (number r : ℕ) × (is : List ℕ) × AreMembers self.now number r at is }
        ensures { (number r : ℕ) (is : List ℕ) → AreMembers self.now number r at is
            → MatchOption result ((behind_in (elements self.now) rank is ≡ is) × (run (elements self.now) rank is ≡ no_items))
            (λ link. IsFirst self.now number at is link × ((elements self.now).rank link.node ≡ rank)) }
    {
        let link = self.link_at(at)?;
        if self.rank_of(link.node) == rank {
            Some(link)
        } else {
            None
        }
    }

    // The link that stands there.
    fn link_at(&self, at: Option<u32>) -> Option<Link>
        requires { (number r : ℕ) × (is : List ℕ) × AreMembers self.now number r at is }
        ensures { (number r : ℕ) (is : List ℕ) → AreMembers self.now number r at is
            → MatchOption result (is ≡ []) (IsFirst self.now number at is) }
    {
        match at {
            Some(place) => Some(self.members.link(place)),
            None => None,
        }
    }

    // The rank of the name of a node.
    fn rank_of(&self, number: u32) -> usize
        requires { number < length self.now.nodes.now }
        ensures { result ≡ (elements self.now).rank number }
    {
        let node = self.node(number);
        self.ranks.rank(node.element)
    }

    // The node of this number.
    fn node(&self, number: u32) -> Node
        requires { number < length self.now.nodes.now }
        ensures { result ≡ slice_index_or self.now.nodes.now number result }
    {
        self.nodes[number as usize]
    }
}
