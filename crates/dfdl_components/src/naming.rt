// What names that are written in documents name.
ghost use Rattle.std.specs.Prelude.{◌≡◌, ◌<◌, ◌&&◌, length, map, option_copied, option_map, chars, encode_utf8_all, bytes_eq, is_some};
ghost use Rattle.std.specs.List.{list_any};
ghost use Rattle.dfdl_constructs.specs.Elements.{schema_namespace};
ghost use Rattle.dfdl_components.specs.Sites.{IsSite, role_of, nodes_of};
ghost use Rattle.dfdl_components.specs.Namespaces.{own_namespace, namespace_of};
ghost use Rattle.dfdl_components.specs.Naming.{unprefixed, namespace_written, named, named_in, resolved};
ghost use Rattle.dfdl_components.specs.Naming.{is_type, is_nothing, refers_to_nothing, is_name_not_found};
ghost use Rattle.dfdl_components.specs.Shown.{referring_shown};

use crate::built_ins::built_in;
use crate::kind::ComponentKind;
use crate::named::Named;
use crate::referring::{Referring, referring_attributes};
use crate::schema::Schema;
use crate::site::Site;
use dfdl_constructs::Qualified;

// The text, which is UTF-8.
fn spelled(text: &str) -> &str
    ensures { result.now ≡ encode_utf8_all (chars text.now) }
{
    text
}

// The namespace is that of XML Schema.
#[tactic(auto, unfolding(dfdl_constructs::specs::Elements::schema_namespace))]
fn is_schema_namespace(namespace: &str) -> bool
    ensures { result ≡ bytes_eq namespace.now schema_namespace }
{
    namespace == "http://www.w3.org/2001/XMLSchema"
}

impl Schema {
    // The namespace of names without a prefix, where no default namespace is declared.
    fn unprefixed(&self, document: u32) -> &str
        requires { document < length self.now }
        ensures { result.now ≡ unprefixed (own_namespace self.now document) (namespace_of self.now document) }
    {
        if self.has_own_namespace(document) {
            ""
        } else {
            self.namespace(document)
        }
    }

    // The namespace of names with this prefix, or with none, at an element.
    fn namespace_written(&self, site: Site, prefix: &str) -> Option<&str>
        requires { IsSite self.now site }
        ensures { option_copied result ≡ namespace_written self.now site prefix.now }
    {
        match self.tree(site.document).prefix(site.element, prefix) {
            Some(namespace) => Some(spelled(namespace)),
            None if prefix.is_empty() => Some(self.unprefixed(site.document)),
            None => None,
        }
    }

    // What a name in a namespace names.
    fn named(&self, kind: ComponentKind, namespace: &str, local: &str) -> Option<Named>
        ensures { result ≡ named self.now kind namespace.now local.now }
    {
        if kind == ComponentKind::Type && is_schema_namespace(namespace) {
            if let Some(named) = built_in(local) {
                return Some(named);
            }
        }
        let site = self.global(kind, namespace, local)?;
        Some(Named::Component(site))
    }

    /// What a name of this kind that is written at an element names.
    pub fn resolve(&self, site: Site, kind: ComponentKind, text: &str) -> Option<Named>
        requires { IsSite self.now site }
        ensures { result ≡ resolved self.now site kind text.now }
    {
        let name = Qualified::of(text);
        let namespace = self.namespace_written(site, name.prefix)?;
        self.named(kind, namespace, name.local)
    }

    // An attribute of an element refers to nothing.
    fn refers_to_nothing(&self, site: Site, row: &Referring) -> bool
        requires { IsSite self.now site }
        ensures { result ≡ refers_to_nothing self.now site (referring_shown row.now) }
    {
        match row.name(self.tree(site.document), site.element) {
            Some(text) => self.resolve(site, row.kind(), text).is_none(),
            None => false,
        }
    }

    /// Whether a reference of an element names nothing.
    pub fn is_name_not_found(&self, site: Site) -> bool
        requires { IsSite self.now site }
        ensures { result ≡ is_name_not_found self.now site }
    {
        for row in referring_attributes(self.role(site)) {
            if self.refers_to_nothing(site, row) {
                return true;
            }
        }
        false
    }
}
