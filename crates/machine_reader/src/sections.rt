//! The sections of a dump that are read.
ghost use Rattle.std.specs.Prelude.{◌≡◌};
ghost use Rattle.machine_reader.specs.Sections.{class_of, section_text};

/// A section of a dump: the prototypes of one type.
#[derive(Clone, Copy, Debug, PartialEq, Eq)]
pub enum Section {
    Item,
    Ammo,
    Capsule,
    Gun,
    ItemWithEntityData,
    ItemWithLabel,
    ItemWithInventory,
    BlueprintBook,
    ItemWithTags,
    SelectionTool,
    Blueprint,
    CopyPasteTool,
    DeconstructionItem,
    UpgradeItem,
    Module,
    RailPlanner,
    SpidertronRemote,
    Tool,
    Armor,
    RepairTool,
    Fluid,
    Recipe,
    Resource,
    Tree,
    SimpleEntity,
    Fish,
    AssemblingMachine,
    Furnace,
    RocketSilo,
    MiningDrill,
    OffshorePump,
    Boiler,
    Generator,
    BurnerGenerator,
    SolarPanel,
    Reactor,
    Lab,
    Beacon,
    Character,
    Technology,
}

/// What the prototypes of a section are.
#[derive(Clone, Copy, Debug, PartialEq, Eq)]
pub enum Class {
    Items,
    Fluids,
    Recipes,
    Sources,
    Machines,
    Characters,
    Technologies,
}

impl Section {
    /// The type as a dump spells it.
    pub fn text(self) -> &'static str
        ensures { result.now ≡ section_text self }
    {
        match self {
            Section::Item => "item",
            Section::Ammo => "ammo",
            Section::Capsule => "capsule",
            Section::Gun => "gun",
            Section::ItemWithEntityData => "item-with-entity-data",
            Section::ItemWithLabel => "item-with-label",
            Section::ItemWithInventory => "item-with-inventory",
            Section::BlueprintBook => "blueprint-book",
            Section::ItemWithTags => "item-with-tags",
            Section::SelectionTool => "selection-tool",
            Section::Blueprint => "blueprint",
            Section::CopyPasteTool => "copy-paste-tool",
            Section::DeconstructionItem => "deconstruction-item",
            Section::UpgradeItem => "upgrade-item",
            Section::Module => "module",
            Section::RailPlanner => "rail-planner",
            Section::SpidertronRemote => "spidertron-remote",
            Section::Tool => "tool",
            Section::Armor => "armor",
            Section::RepairTool => "repair-tool",
            Section::Fluid => "fluid",
            Section::Recipe => "recipe",
            Section::Resource => "resource",
            Section::Tree => "tree",
            Section::SimpleEntity => "simple-entity",
            Section::Fish => "fish",
            Section::AssemblingMachine => "assembling-machine",
            Section::Furnace => "furnace",
            Section::RocketSilo => "rocket-silo",
            Section::MiningDrill => "mining-drill",
            Section::OffshorePump => "offshore-pump",
            Section::Boiler => "boiler",
            Section::Generator => "generator",
            Section::BurnerGenerator => "burner-generator",
            Section::SolarPanel => "solar-panel",
            Section::Reactor => "reactor",
            Section::Lab => "lab",
            Section::Beacon => "beacon",
            Section::Character => "character",
            Section::Technology => "technology",
        }
    }

    /// What its prototypes are.
    pub fn class(self) -> Class
        ensures { result ≡ class_of self }
    {
        match self {
            Section::Fluid => Class::Fluids,
            Section::Recipe => Class::Recipes,
            Section::Resource | Section::Tree | Section::SimpleEntity | Section::Fish => {
                Class::Sources
            }
            Section::AssemblingMachine
            | Section::Furnace
            | Section::RocketSilo
            | Section::MiningDrill
            | Section::OffshorePump
            | Section::Boiler
            | Section::Generator
            | Section::BurnerGenerator
            | Section::SolarPanel
            | Section::Reactor
            | Section::Lab
            | Section::Beacon => Class::Machines,
            Section::Character => Class::Characters,
            Section::Technology => Class::Technologies,
            _ => Class::Items,
        }
    }
}
