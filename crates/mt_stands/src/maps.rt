//! The maps of a controller's core: its live workflows, and its open ways.

use indexmap::IndexMap;
use mt_names::WorkflowName;
use mt_steps::OpenWay;
use mt_workflow::Workflow;

/// The live workflows by their names, in the order in which they were created.
pub type Workflows = IndexMap<WorkflowName, Workflow>;

/// The ways that are open, by the names of their workflows.
pub type OpenWays = IndexMap<WorkflowName, OpenWay>;
